//! A tree as a canonical source.
ghost use Rattle.std.specs.Prelude.{◌≡◌, ◌≤◌, ◌++◌, length, OnOk};
ghost use Rattle.dt_blob.specs.Answers.{Makes};
ghost use Rattle.dt_blob.specs.Blob.{limit};
ghost use Rattle.dt_blob.specs.BigEndian.{double_word};
ghost use Rattle.dt_blob.specs.Steps.Printed.{Prints, form_of};
ghost use Rattle.dt_blob.specs.SourceText.{hex_of, tabs, value_part, property_line, property_lines, begin_line, end_line, node_lines, reserve_line, reserve_lines, text_of};

use crate::error::BlobError;
use crate::room::check_pieces;
use crate::value_form::{ValueForm, form_of};
use crate::value_text::{put_hex, put_value, value_len};
use byteorder::{BigEndian, ByteOrder};
use dt_tree::{Node, Property, Tree};
use std::alloc::{AllocError, Global};

fn put_tabs(out: &mut Vec<u8>, depth: usize) -> Result<(), AllocError>
    ensures { OnOk result (out.new.items ≡ out.old.items ++ tabs depth) }
{
    for _level in 0..depth {
        out.push(b'\t')?;
    }
    Ok(())
}

fn value_part_len(form: ValueForm, value: &[u8]) -> usize
    requires form { form ≡ form_of value.now }
    requires fits { length value.now ≤ limit }
    ensures { result ≡ length (value_part value.now) }
{
    if value.is_empty() {
        return 2;
    }
    5 + value_len(form, value)
}

fn put_value_part(out: &mut Vec<u8>, form: ValueForm, value: &[u8]) -> Result<(), AllocError>
    requires { form ≡ form_of value.now }
    ensures { OnOk result (out.new.items ≡ out.old.items ++ value_part value.now) }
{
    if value.is_empty() {
        return out.extend_from_slice(b";\n");
    }
    out.extend_from_slice(b" = ")?;
    put_value(out, form, value)?;
    out.extend_from_slice(b";\n")
}

fn put_property_line(
    out: &mut Vec<u8>,
    depth: usize,
    property: &Property,
    form: ValueForm,
) -> Result<(), AllocError>
    requires { form ≡ form_of property.now.value }
    ensures { OnOk result (out.new.items ≡ out.old.items ++ property_line depth property.now) }
{
    put_tabs(out, depth)?;
    out.extend_from_slice(property.name.as_bytes())?;
    put_value_part(out, form, property.value.as_slice())
}

fn put_property(out: &mut Vec<u8>, depth: usize, property: &Property) -> Result<(), BlobError>
    requires { length out.old.items ≤ limit }
    ensures { Prints result out.new.items (out.old.items ++ property_line depth property.now) }
{
    let name = property.name.as_bytes();
    let value = property.value.as_slice();
    check_pieces(out.len(), &[value.len()])?;
    let form = form_of(value);
    check_pieces(out.len(), &[depth, name.len(), value_part_len(form, value)])?;
    put_property_line(out, depth, property, form)?;
    Ok(())
}

fn put_properties(out: &mut Vec<u8>, depth: usize, properties: &[Property]) -> Result<(), BlobError>
    requires { length out.old.items ≤ limit }
    ensures { Prints result out.new.items (out.old.items ++ property_lines depth properties.now) }
{
    for property in properties {
        put_property(out, depth, property)?;
    }
    Ok(())
}

fn put_begin_line(out: &mut Vec<u8>, depth: usize, name: &[u8]) -> Result<(), AllocError>
    ensures { OnOk result (out.new.items ≡ out.old.items ++ begin_line depth name.now) }
{
    put_tabs(out, depth)?;
    out.extend_from_slice(name)?;
    out.extend_from_slice(b" {\n")
}

fn put_begin(out: &mut Vec<u8>, depth: usize, name: &[u8]) -> Result<(), BlobError>
    requires { length out.old.items ≤ limit }
    ensures { Prints result out.new.items (out.old.items ++ begin_line depth name.now) }
{
    check_pieces(out.len(), &[depth, name.len(), 3])?;
    put_begin_line(out, depth, name)?;
    Ok(())
}

fn put_end_line(out: &mut Vec<u8>, depth: usize) -> Result<(), AllocError>
    ensures { OnOk result (out.new.items ≡ out.old.items ++ end_line depth) }
{
    put_tabs(out, depth)?;
    out.extend_from_slice(b"};\n")
}

fn put_end(out: &mut Vec<u8>, depth: usize) -> Result<(), BlobError>
    requires { length out.old.items ≤ limit }
    ensures { Prints result out.new.items (out.old.items ++ end_line depth) }
{
    check_pieces(out.len(), &[depth, 3])?;
    put_end_line(out, depth)?;
    Ok(())
}

fn put_node(out: &mut Vec<u8>, depth: usize, name: &[u8], node: &Node) -> Result<(), BlobError>
    requires { length out.old.items ≤ limit }
    ensures { Prints result out.new.items (out.old.items ++ node_lines depth name.now node.now) }
{
    put_begin(out, depth, name)?;
    put_properties(out, depth + 1, node.properties())?;
    for child in node.children() {
        put_node(out, depth + 1, child.name_bytes(), child)?;
    }
    put_end(out, depth)
}

#[tactic(auto, unfolding(crate::specs::BigEndian::double_word))]
fn put_number(out: &mut Vec<u8>, number: u64) -> Result<(), AllocError>
    ensures { OnOk result (out.new.items ≡ out.old.items ++ hex_of (double_word number)) }
{
    let mut bytes = [0; 8];
    BigEndian::write_u64(&mut bytes, number);
    put_hex(out, &bytes)
}

fn put_reserve_line(out: &mut Vec<u8>, reserve: &(u64, u64)) -> Result<(), AllocError>
    ensures { OnOk result (out.new.items ≡ out.old.items ++ reserve_line reserve.now) }
{
    out.extend_from_slice(b"/memreserve/ 0x")?;
    put_number(out, reserve.0)?;
    out.extend_from_slice(b" 0x")?;
    put_number(out, reserve.1)?;
    out.extend_from_slice(b";\n")
}

fn put_reserve(out: &mut Vec<u8>, reserve: &(u64, u64)) -> Result<(), BlobError>
    requires { length out.old.items ≤ limit }
    ensures { Prints result out.new.items (out.old.items ++ reserve_line reserve.now) }
{
    check_pieces(out.len(), &[52])?;
    put_reserve_line(out, reserve)?;
    Ok(())
}

fn put_reserves(out: &mut Vec<u8>, reserves: &[(u64, u64)]) -> Result<(), BlobError>
    requires { length out.old.items ≤ limit }
    ensures { Prints result out.new.items (out.old.items ++ reserve_lines reserves.now) }
{
    for reserve in reserves {
        put_reserve(out, reserve)?;
    }
    Ok(())
}

/// Prints a tree as a source. Fails with `TooLarge` where it has over 268,435,456 bytes, and with
/// `NoMemory`. The processor that boots is left out, since no source can say it.
pub fn source_text(alloc: Global, tree: &Tree) -> Result<Vec<u8>, BlobError>
    ensures { Makes (λ text. text.items) (text_of tree.now) result }
{
    let mut text = Vec::from_slice(alloc, b"/dts-v1/;\n\n")?;
    put_reserves(&mut text, tree.reserves())?;
    put_node(&mut text, 0, b"/", tree.root())?;
    Ok(text)
}
