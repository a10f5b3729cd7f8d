//! The flight that a seat has, and its looks.

ghost use Rattle.std.specs.Prelude.{◌≡◌, ◌≢◌, ◌≤◌, ℕ, true, false, [], Some, length, vec_capacity, slice_get, IfSome, MatchOption};
ghost use Rattle.bus_board.specs.Private.Looks.{HasNone, IsFoundOf, IsOnlyAt, IsPlaceOf, noted_looks};
ghost use Rattle.bus_board.specs.Private.Ties.{FlightAfter, looks_at};

use bus_plan::Device;

/// A flight: its device, and each supplier with whether the last look found it BOUND.
#[derive(Drop)]
pub struct Open {
    pub device: Device,
    pub looks: Vec<(Device, Option<bool>)>,
    /// Where the next look is expected: behind the last one.
    pub next: usize,
}

/// Each supplier, with no look yet.
pub fn first_looks(
    mut looks: Vec<(Device, Option<bool>)>,
    suppliers: &[Device],
) -> Vec<(Device, Option<bool>)>
    requires { (looks.items ≡ []) × (length suppliers.now ≤ vec_capacity looks) }
    ensures { result.items ≡ looks_at [] suppliers.now }
{
    for supplier in suppliers {
        looks.push_reserved((*supplier, None));
    }
    looks
}

/// The last look at a supplier, where it is among these.
pub fn find_look(looks: &[(Device, Option<bool>)], supplier: Device) -> Option<Option<bool>>
    ensures { MatchOption result (HasNone looks.now supplier) (IsFoundOf looks.now supplier) }
{
    for look in looks {
        if look.0.index() == supplier.index() {
            return Some(look.1);
        }
    }
    None
}

/// Whether the last look at each of these suppliers found it BOUND.
pub fn saw_all(looks: &[(Device, Option<bool>)]) -> bool
    ensures yes { result ≡ true → (i : ℕ) (x : _) → slice_get looks.now i ≡ Some x → x.1 ≡ Some true }
    ensures no { result ≡ false → (i : ℕ) × (x : _) × (slice_get looks.now i ≡ Some x) × (x.1 ≢ Some true) }
{
    for look in looks {
        if !saw_bound(look.1) {
            return false;
        }
    }
    true
}

fn saw_bound(look: Option<bool>) -> bool
    ensures yes { result ≡ true → look ≡ Some true }
    ensures no { result ≡ false → look ≢ Some true }
{
    match look {
        Some(true) => true,
        _ => false,
    }
}

/// Whether a look was made and found its supplier not BOUND.
pub fn missed(look: Option<bool>) -> bool
    ensures yes { result ≡ true → look ≡ Some false }
    ensures no { result ≡ false → look ≢ Some false }
{
    match look {
        Some(false) => true,
        _ => false,
    }
}

/// The place of a supplier among these: it is looked for where the next look is expected, and then from the first on.
pub fn find_place(looks: &[(Device, Option<bool>)], next: usize, supplier: Device) -> Option<usize>
    ensures { MatchOption result (HasNone looks.now supplier) (IsPlaceOf looks.now supplier) }
{
    if is_at(looks, next, supplier) {
        return Some(next);
    }
    for place in 0..looks.len() {
        if is_at(looks, place, supplier) {
            return Some(place);
        }
    }
    None
}

// Whether the supplier has this place.
fn is_at(looks: &[(Device, Option<bool>)], place: usize, supplier: Device) -> bool
    ensures yes { result ≡ true → IsPlaceOf looks.now supplier place }
    ensures no { result ≡ false → (x : _) → slice_get looks.now place ≡ Some x → x.0 ≢ supplier }
{
    if place < looks.len() {
        return looks[place].0.index() == supplier.index();
    }
    false
}

/// The flight after a look at the supplier that has this place.
pub fn after_look(flight: Option<Open>, place: usize, supplier: Device, bound: bool) -> Option<Open>
    requires { IfSome flight (λ x. IsOnlyAt x.looks.items place supplier) }
    ensures { FlightAfter supplier bound flight result }
{
    match flight {
        Some(
            Open {
                device,
                mut looks,
                next: _,
            },
        ) => {
            note_look(looks.as_mut_slice(), place, supplier, bound);
            Some(Open {
                device,
                looks,
                next: place.saturating_add(1),
            })
        }
        None => None,
    }
}

// Notes the look in the supplier's place.
fn note_look(looks: &mut [(Device, Option<bool>)], place: usize, supplier: Device, bound: bool)
    requires { IsOnlyAt looks.old place supplier }
    ensures { looks.new ≡ noted_looks supplier bound looks.old }
{
    looks[place] = (supplier, Some(bound));
}
