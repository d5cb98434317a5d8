//! The kinds of a schedule by OpenMP 5.0, by number and by name.

ghost use Rattle.std.specs.Prelude.{◌≡◌};
ghost use Rattle.std.specs.Option.{option_copied};
ghost use Rattle.omi_numbers.specs.Names.{name_in};
ghost use Rattle.omi_numbers.specs.Schedules.{schedule_kinds, schedule_kind_of};

pub const STATIC: u8 = 1;

pub const DYNAMIC: u8 = 2;

pub const GUIDED: u8 = 3;

/// The last kind: numbers are from 1 to this.
pub const AUTO: u8 = 4;

/// The name of a schedule kind. None for a number that this profile gives no kind.
pub fn kind_name(kind: u64) -> Option<&'static str>
    ensures { option_copied result ≡ name_in schedule_kinds kind }
{
    if kind == u64::from(STATIC) {
        Some("static")
    } else if kind == u64::from(DYNAMIC) {
        Some("dynamic")
    } else if kind == u64::from(GUIDED) {
        Some("guided")
    } else if kind == u64::from(AUTO) {
        Some("auto")
    } else {
        None
    }
}

/// The number of the schedule kind with a name. None where no kind has it.
pub fn kind_number(word: &[u8]) -> Option<u8>
    ensures { result ≡ schedule_kind_of word.now }
{
    if word == b"static".as_slice() {
        Some(STATIC)
    } else if word == b"dynamic".as_slice() {
        Some(DYNAMIC)
    } else if word == b"guided".as_slice() {
        Some(GUIDED)
    } else if word == b"auto".as_slice() {
        Some(AUTO)
    } else {
        None
    }
}
