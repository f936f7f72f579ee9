//! The names that scripts have for functions.

ghost use Rattle.std.specs.Prelude.{◌≡◌, option_map};
ghost use Rattle.rsx_drive.specs.Names.{name_of, map_name, name_of_two};

use rsx_demo::Role;
use std::fmt;

/// The name that scripts have for the function with this number, if they have one; [`rsx_demo::function_number`] gives the number of
/// a name.
pub fn function_name(role: Role, f: u16) -> Option<&'static str>
    ensures { option_map (λ s. s.now) result ≡ name_of role f }
{
    match role {
        Role::Map => name_of_map(f),
        Role::Test => of_two("even", "positive", f),
        Role::Fold => of_two("add", "max", f),
        Role::Key => of_two("mod3", "same", f),
        Role::Expand => of_two("upto", "twice", f),
    }
}

/// The name of a function of `map`.
fn name_of_map(f: u16) -> Option<&'static str>
    ensures { option_map (λ s. s.now) result ≡ map_name f }
{
    match f {
        1 => Some("inc"),
        2 => Some("double"),
        3 => Some("neg"),
        4 => Some("size"),
        _ => None,
    }
}

/// The first of two names for 1, and the second for 2.
fn of_two(one: &'static str, two: &'static str, f: u16) -> Option<&'static str>
    ensures { option_map (λ s. s.now) result ≡ name_of_two one.now two.now f }
{
    match f {
        1 => Some(one),
        2 => Some(two),
        _ => None,
    }
}

/// A function by its name.
#[derive(Clone, Copy)]
pub(crate) struct Named(pub(crate) Role, pub(crate) u16);

/// The name of the function, or its number where it has none.
impl fmt::Display for Named {
    ghost use Rattle.std.specs.Prelude.{Some};
    ghost use Rattle.rsx_drive.specs.Names.{function_text};

    ghost output = { λ named. Some (function_text named.0 named.1) };

    fn fmt<W: fmt::Write>(&self, f: &mut fmt::Formatter<W>) -> fmt::Result {
        match function_name(self.0, self.1) {
            Some(name) => f.write_str(name),
            None => write!(f, "{}", self.1),
        }
    }
}
