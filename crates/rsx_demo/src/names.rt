//! The names of the demonstration's functions, for scripts.

ghost use Rattle.std.specs.Prelude.{◌≡◌};
ghost use Rattle.rsx_demo.specs.Names.{number_named, map_number_of, test_number_of, fold_number_of, key_number_of, expand_number_of};

/// What a function is for: each use has its own names and numbers.
#[derive(Clone, Copy, Debug, PartialEq, Eq)]
pub enum Role {
    /// `Ops::map`.
    Map,
    /// `Ops::test`.
    Test,
    /// `Ops::fold`.
    Fold,
    /// `Ops::key`.
    Key,
    /// `Ops::expand`.
    Expand,
}

/// The number of the function with this name, or nothing where the use has no function of that name.
pub fn function_number(role: Role, name: &str) -> Option<u16>
    ensures { result ≡ number_named role name.now }
{
    match role {
        Role::Map => map_number(name),
        Role::Test => test_number(name),
        Role::Fold => fold_number(name),
        Role::Key => key_number(name),
        Role::Expand => expand_number(name),
    }
}

/// The number of a function of `map`.
fn map_number(name: &str) -> Option<u16>
    ensures { result ≡ map_number_of name.now }
{
    match name {
        "inc" => Some(1),
        "double" => Some(2),
        "neg" => Some(3),
        "size" => Some(4),
        _ => None,
    }
}

/// The number of a function of `filter`.
fn test_number(name: &str) -> Option<u16>
    ensures { result ≡ test_number_of name.now }
{
    match name {
        "even" => Some(1),
        "positive" => Some(2),
        _ => None,
    }
}

/// The number of a function of `scan`.
fn fold_number(name: &str) -> Option<u16>
    ensures { result ≡ fold_number_of name.now }
{
    match name {
        "add" => Some(1),
        "max" => Some(2),
        _ => None,
    }
}

/// The number of a function of `distinct`.
fn key_number(name: &str) -> Option<u16>
    ensures { result ≡ key_number_of name.now }
{
    match name {
        "mod3" => Some(1),
        "same" => Some(2),
        _ => None,
    }
}

/// The number of a function that expands an item.
fn expand_number(name: &str) -> Option<u16>
    ensures { result ≡ expand_number_of name.now }
{
    match name {
        "upto" => Some(1),
        "twice" => Some(2),
        _ => None,
    }
}
