//! The strings of a property's value: what stands before each zero byte.
ghost use Rattle.std.specs.Prelude.{◌≡◌, ◌<◌, ◌∷◌, [], IfSome, MatchOption, length, position};
ghost use Rattle.bus_drivers.specs.TreePlan.{is_zero, strings};

fn zero_place(bytes: &[u8]) -> Option<usize>
    ensures { result ≡ position is_zero bytes.now }
{
    bytes.iter().position(|byte| *byte == 0)
}

/// The first string and the bytes behind its zero byte.
pub fn next_string(bytes: &[u8]) -> Option<(&[u8], &[u8])>
    ensures string { MatchOption result (strings bytes.now ≡ [])
        (λ next. strings bytes.now ≡ next.0.now ∷ strings next.1.now) }
    ensures fewer { IfSome result (λ next. length next.1.now < length bytes.now) }
{
    let Some(end) = zero_place(bytes) else {
        return None;
    };
    Some((&bytes[..end], &bytes[end + 1..]))
}
