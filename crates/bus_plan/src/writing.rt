ghost use Rattle.std.specs.Prelude.{◌≡◌, ◌<◌, ◌++◌, ◌∷◌, [], length, map, All, IfOk, OnOk};
ghost use Rattle.std.specs.Option.{option_copied};
ghost use Rattle.bus_plan.specs.Plan.{planned, path_of};
ghost use Rattle.bus_plan.specs.PlanText.{text_of, device_text, lines_text, strings_lines, spaced, driver_field, verdict_field};

use crate::device::Device;
use crate::plan::Plan;
use crate::verdict::Verdict;
use dt_tree::{Bytes, Name};
use std::alloc::{AllocError, Global};

fn driver_field<'a>(available: bool, driver: Option<&'a Name>) -> &'a [u8]
    ensures { result.now ≡ driver_field available (option_copied driver.entry) }
{
    match driver {
        Some(name) => name.as_bytes(),
        None => { if available { b"-" } else { b"!" } }
    }
}

fn verdict_field(driver: Option<&Name>, verdict: Verdict) -> &'static [u8]
    ensures { result.now ≡ verdict_field (option_copied driver.entry) verdict }
{
    match driver {
        None => b"-",
        Some(_) => match verdict {
            Verdict::Binds => b"ok",
            Verdict::Fails => b"fail",
        },
    }
}

fn write_field(text: &mut Vec<u8>, field: &[u8]) -> Result<(), AllocError>
    ensures { OnOk result (text.new.items ≡ text.old.items ++ 32 ∷ field.now) }
{
    text.push(b' ')?;
    text.extend_from_slice(field)?;
    Ok(())
}

fn write_suppliers(text: &mut Vec<u8>, plan: &Plan, suppliers: &[Device]) -> Result<(), AllocError>
    requires { All (λ s. s < length plan.now) suppliers.now }
    ensures { OnOk result
        (text.new.items ≡ text.old.items ++ spaced (map (path_of plan.now) suppliers.now)) }
{
    for supplier in suppliers {
        write_field(text, plan.path(*supplier).as_bytes())?;
    }
    Ok(())
}

fn write_device(text: &mut Vec<u8>, plan: &Plan, device: Device) -> Result<(), AllocError>
    requires { device < length plan.now }
    ensures { OnOk result (text.new.items
        ≡ text.old.items ++ (device_text plan.now (planned plan.now device) ++ 10 ∷ [])) }
{
    plan.check();
    text.extend_from_slice(plan.path(device).as_bytes())?;
    write_field(
        text,
        driver_field(plan.available(device), plan.driver(device)),
    )?;
    write_field(
        text,
        verdict_field(plan.driver(device), plan.verdict(device)),
    )?;
    write_suppliers(text, plan, plan.suppliers(device))?;
    text.push(b'\n')?;
    Ok(())
}

fn write_devices(text: &mut Vec<u8>, plan: &Plan) -> Result<(), AllocError>
    ensures { OnOk result (text.new.items ≡ text.old.items ++ lines_text plan.now plan.now) }
{
    for index in 0..plan.len() {
        write_device(text, plan, Device::new(index))?;
    }
    Ok(())
}

fn write_strings(text: &mut Vec<u8>, strings: &[Bytes]) -> Result<(), AllocError>
    ensures { OnOk result (text.new.items ≡ text.old.items ++ spaced strings.now) }
{
    for string in strings {
        write_field(text, string.as_slice())?;
    }
    Ok(())
}

// The line of a device's strings, if it has some.
fn write_compatibles(text: &mut Vec<u8>, plan: &Plan, device: Device) -> Result<(), AllocError>
    requires { device < length plan.now }
    ensures { OnOk result (text.new.items ≡ text.old.items ++ strings_lines (planned plan.now device ∷ [])) }
{
    let strings = plan.compatibles(device);
    if strings.is_empty() {
        return Ok(());
    }
    text.extend_from_slice(b"compatible")?;
    write_field(text, plan.path(device).as_bytes())?;
    write_strings(text, strings)?;
    text.push(b'\n')?;
    Ok(())
}

fn write_all_compatibles(text: &mut Vec<u8>, plan: &Plan) -> Result<(), AllocError>
    ensures { OnOk result (text.new.items ≡ text.old.items ++ strings_lines plan.now) }
{
    for index in 0..plan.len() {
        write_compatibles(text, plan, Device::new(index))?;
    }
    Ok(())
}

/// The text of a plan, as a plan file. It is read as the same plan.
pub fn plan_text(alloc: Global, plan: &Plan) -> Result<Vec<u8>, AllocError>
    ensures { IfOk result (λ text. text.items ≡ text_of plan.now) }
{
    let mut text = Vec::new(alloc);
    write_devices(&mut text, plan)?;
    write_all_compatibles(&mut text, plan)?;
    Ok(text)
}
