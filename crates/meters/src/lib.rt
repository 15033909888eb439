// Meters and their events: the moduli, the events that there are, and a meter's new number.
#![tactic(auto)]

ghost use Rattle.std.specs.Prelude.{◌≡◌, true, false, not, ◌+◌, ◌^◌, ◌<◌, ◌≤◌};
ghost use Rattle.std.specs.List.{list_all};
ghost use Rattle.meters.specs.Meters.{modulus_bad, moduli_ok, fixed_moduli, adds, modulus_of, event_known, moves_credit, own_meter, first_meter, event_needs};
ghost use Rattle.meters.specs.Meters.{rolled, credit_after, first_number, credit_bad, amount_bad};

// Document 02: "Each has its modulus from a fixed table".
const MODULI: [u64; 24] = [
    100000000, 100000000, 100000000, 100000000, 100000000, 1000000, 1000000, 1000000, 1000000,
    1000000, 1000000, 1000000, 1000000, 1000000, 1000000, 10000, 10000, 10000, 10000, 10000, 10000,
    10000, 10000, 10000,
];

// The fixed table, for a host that loads no other.
pub fn fixed_moduli() -> [u64; 24]
    ensures { result ≡ fixed_moduli }
{
    MODULI
}

// Row 26 of a modulus.
pub fn modulus_bad(modulus: u64) -> bool
    ensures { result ≡ modulus_bad modulus }
{
    (modulus < 100) | (1000000000000 < modulus)
}

// Whether each of these is in the range.
fn are_in_range(moduli: &[u64]) -> bool
    ensures { result ≡ list_all (λ modulus. not (modulus_bad modulus)) moduli.now }
{
    moduli.iter().all(|modulus| !modulus_bad(*modulus))
}

// Whether these are 24 moduli in the range.
pub fn moduli_ok(moduli: &[u64]) -> bool
    ensures { result ≡ moduli_ok moduli.now }
{
    moduli.len() == 24 && are_in_range(moduli)
}

// The modulus of meter m.
fn modulus(moduli: &[u64], m: usize) -> u64
    requires { (moduli_ok moduli.now ≡ true) × (m < 24) }
    ensures { result ≡ modulus_of moduli.now m }
{
    moduli[m]
}

// Whether there is such an event.
pub fn is_known(kind: usize, meter: usize) -> bool
    ensures { result ≡ event_known kind meter }
{
    ((1 <= kind) & (kind <= 4)) | ((kind == 5) & ((5 <= meter) & (meter <= 23)))
}

// Whether an event moves credit.
pub fn moves_credit(kind: usize) -> bool
    ensures { result ≡ moves_credit kind }
{
    kind < 5
}

// The meter of an event's own.
pub fn own_meter(kind: usize, meter: usize) -> usize
    ensures { result ≡ own_meter kind meter }
{
    if moves_credit(kind) { kind } else { meter }
}

// The meter whose line goes first.
pub fn first_meter(kind: usize, meter: usize) -> usize
    ensures { result ≡ first_meter kind meter }
{
    if moves_credit(kind) { 0 } else { meter }
}

// The stores that an event needs.
pub fn event_needs(kind: usize) -> usize
    ensures { result ≡ event_needs kind }
{
    if moves_credit(kind) { 21 } else { 13 }
}

// The new number of a meter that rolls. The stored number may be any word, so no sum of words is made.
pub fn rolled_by(moduli: &[u64], m: usize, stored: u64, amount: u64) -> u64
    requires { (moduli_ok moduli.now ≡ true) × (m < 24) }
    ensures { result ≡ rolled moduli.now m stored amount }
{
    let k = modulus(moduli, m);
    (stored % k + amount % k) % k
}

// Whether an event adds to credit, where it moves it.
fn is_adding(kind: usize) -> bool
    ensures { result ≡ adds kind }
{
    (kind == 1) | (kind == 4)
}

// Row 21 of credit: whether its new number would lie outside 0 to most - 1, most being its modulus. No sum wraps.
pub fn credit_bad(moduli: &[u64], kind: usize, credit: u64, amount: u64) -> bool
    requires { moduli_ok moduli.now ≡ true }
    ensures { result ≡ credit_bad moduli.now kind credit amount }
{
    let most = modulus(moduli, 0);
    if is_adding(kind) {
        if most <= credit {
            return true;
        }
        return most - credit <= amount;
    }
    if credit < amount {
        return true;
    }
    most <= credit - amount
}

// Row 21.
pub fn amount_bad(moduli: &[u64], kind: usize, meter: usize, stored: u64, amount: u64) -> bool
    requires { (moduli_ok moduli.now ≡ true) × (event_known kind meter ≡ true) }
    ensures { result ≡ amount_bad moduli.now kind meter stored amount }
{
    if modulus(moduli, own_meter(kind, meter)) <= amount {
        return true;
    }
    if moves_credit(kind) {
        return credit_bad(moduli, kind, stored, amount);
    }
    false
}

// The new credit, where it is a word.
fn credit_after(kind: usize, credit: u64, amount: u64) -> u64
    requires { (adds kind ≡ true → credit + amount < 2 ^ 64) × (adds kind ≡ false → amount ≤ credit) }
    ensures { result ≡ credit_after kind credit amount }
{
    if is_adding(kind) {
        credit + amount
    } else {
        credit - amount
    }
}

// The new number of the line that goes first.
pub fn first_number(moduli: &[u64], kind: usize, meter: usize, stored: u64, amount: u64) -> u64
    requires { (moduli_ok moduli.now ≡ true) × (event_known kind meter ≡ true) × (amount_bad moduli.now kind meter stored amount ≡ false) }
    ensures { result ≡ first_number moduli.now kind meter stored amount }
{
    if moves_credit(kind) {
        return credit_after(kind, stored, amount);
    }
    rolled_by(moduli, meter, stored, amount)
}
