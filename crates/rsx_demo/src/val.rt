//! Items that are numbers or lists.

ghost use Rattle.std.specs.Prelude.{◌≡◌, ◌≢◌, ◌==◌, true, false, IfOk};

use rsx_types::NoMemory;
use std::alloc::Global;
use std::fmt;
use std::marker::Model;

/// An item of the demonstration. It takes 16 bytes.
///
/// Lists may be nested to any depth. Dropping an item takes some stack for each level, as do a copy, a comparison and a
/// printed text: at a depth of some 100,000 lists that can end the program. Each item that [`crate::Demo`] makes is
/// deeper by one list than what it was made of.
#[cycle(val)]
#[derive(Drop)]
pub enum Val {
    /// A number.
    Int(i64),
    /// A list of items.
    List(Vals),
}

/// The items of a list, behind one pointer, so that an item that is a list is as small as one that is a number.
#[cycle(val)]
#[derive(Drop)]
pub struct Vals {
    items: Box<Vec<Val>>,
}

const _: () = prove!(size_of::<Val>() == 16);

impl Model for Vals {
    ghost use Rattle.rsx_demo.specs.Data.{Data, data_code, data_size};

    ghost Value = { Data };

    ghost coded = { data_code };

    ghost use Rattle.rsx_demo.specs.Items.{data_of};

    ghost view = { λ v. data_of v.items.value.items };

    ghost size = { data_size };

    ghost use Rattle.rsx_demo.specs.Falls.{most_le};

    ghost size_decreases = { λ v h. most_le v };
}

impl Vals {
    ghost use Rattle.rsx_demo.specs.Data.{data_len};
    ghost use Rattle.rsx_demo.specs.Items.{data_of};

    /// A list of these items.
    ///
    /// # Errors
    ///
    /// [`NoMemory`] where the memory for the list's own place was refused.
    pub fn new(alloc: Global, items: Vec<Val>) -> Result<Vals, NoMemory>
        ensures { IfOk result (λ v. v ≡ data_of items.items) }
    {
        let items = Box::new(alloc, items)?;
        Ok(Vals { items })
    }

    /// The items, in their order.
    pub fn as_slice(&self) -> &[Val]
        ensures { data_of result.now ≡ self.now }
    {
        self.items.as_slice()
    }

    /// How many items it has.
    pub fn len(&self) -> usize
        ensures { result ≡ data_len self.now }
    {
        self.as_slice().len()
    }

    /// Whether it has none.
    pub fn is_empty(&self) -> bool
        ensures { result ≡ (data_len self.now == 0) }
    {
        self.len() == 0
    }
}

/// A copy of an item.
///
/// # Errors
///
/// `NoMemory` where a growth was refused.
#[cycle(copy)]
pub fn copy_val(alloc: Global, x: &Val) -> Result<Val, NoMemory>
    ensures { IfOk result (λ y. y ≡ x.now) }
{
    match x {
        Val::Int(n) => Ok(Val::Int(*n)),
        Val::List(items) => Ok(Val::List(copy_vals(alloc, items)?)),
    }
}

/// A copy of a list.
#[cycle(copy)]
fn copy_vals(alloc: Global, x: &Vals) -> Result<Vals, NoMemory>
    ensures { IfOk result (λ y. y ≡ x.now) }
{
    let mut out = Vec::new(alloc);
    for item in x.items.as_slice() {
        out.push(copy_val(alloc, item)?)?;
    }
    Vals::new(alloc, out)
}

/// Copies of these items, in their order.
///
/// # Errors
///
/// `NoMemory` where a growth was refused.
pub fn copy_items(alloc: Global, xs: &[Val]) -> Result<Vec<Val>, NoMemory>
    ensures { IfOk result (λ ys. ys.items ≡ xs.now) }
{
    let mut out = Vec::new(alloc);
    for x in xs {
        out.push(copy_val(alloc, x)?)?;
    }
    Ok(out)
}

/// Whether two items are the same: equal numbers, or lists of the same items.
#[cycle(same)]
pub fn is_same_val(x: &Val, y: &Val) -> bool
    ensures yes { result ≡ true → x.now ≡ y.now }
    ensures no { result ≡ false → x.now ≢ y.now }
{
    match (x, y) {
        (Val::Int(m), Val::Int(n)) => m == n,
        (Val::List(xs), Val::List(ys)) => is_same_list(xs, ys),
        _ => false,
    }
}

/// Whether two lists have the same items, one by one.
#[cycle(same)]
fn is_same_list(xs: &Vals, ys: &Vals) -> bool
    ensures yes { result ≡ true → xs.now ≡ ys.now }
    ensures no { result ≡ false → xs.now ≢ ys.now }
{
    let xs_items = xs.items.as_slice();
    let ys_items = ys.items.as_slice();
    if xs_items.len() != ys_items.len() {
        return false;
    }
    for (i, x) in xs_items.iter().enumerate() {
        if !is_same_val(x, &ys_items[i]) {
            return false;
        }
    }
    true
}

impl PartialEq for Val {
    ghost use Rattle.std.specs.Cmp.{partial_equiv_from_equiv};
    ghost use Rattle.rsx_demo.specs.Same.{same_item, item_equivalence};

    ghost eq = { same_item };

    ghost laws = { partial_equiv_from_equiv item_equivalence };

    fn eq(&self, other: &Val) -> bool {
        is_same_val(self, other)
    }
}

impl Eq for Val {
    ghost use Rattle.rsx_demo.specs.Same.{item_equivalence};

    ghost laws = { item_equivalence };
}

impl PartialEq for Vals {
    ghost use Rattle.std.specs.Cmp.{partial_equiv_from_equiv};
    ghost use Rattle.rsx_demo.specs.Same.{same_data, data_equivalence};

    ghost eq = { same_data };

    ghost laws = { partial_equiv_from_equiv data_equivalence };

    fn eq(&self, other: &Vals) -> bool {
        is_same_list(self, other)
    }
}

impl Eq for Vals {
    ghost use Rattle.rsx_demo.specs.Same.{data_equivalence};

    ghost laws = { data_equivalence };
}

/// The text of `{}`, which is what a script writes for the item.
impl fmt::Debug for Val {
    fn fmt<W: fmt::Write>(&self, f: &mut fmt::Formatter<W>) -> fmt::Result {
        write!(f, "{self}")
    }
}

/// The items as `{}` writes them, in brackets.
impl fmt::Debug for Vals {
    fn fmt<W: fmt::Write>(&self, f: &mut fmt::Formatter<W>) -> fmt::Result {
        write!(f, "[{self}]")
    }
}

/// A number in decimal digits, or the items of a list in brackets, with a space between them.
impl fmt::Display for Val {
    ghost use Rattle.std.specs.Prelude.{Some};
    ghost use Rattle.rsx_demo.specs.Texts.{item_text};

    ghost output = { λ item. Some (item_text item) };

    #[cycle(shown)]
    fn fmt<W: fmt::Write>(&self, f: &mut fmt::Formatter<W>) -> fmt::Result {
        match self {
            Val::Int(n) => write!(f, "{n}"),
            Val::List(items) => write!(f, "[{items}]"),
        }
    }
}

/// The items, with a space between them.
impl fmt::Display for Vals {
    ghost use Rattle.std.specs.Prelude.{Some};
    ghost use Rattle.rsx_demo.specs.Texts.{data_text};

    ghost output = { λ items. Some (data_text items) };

    #[cycle(shown)]
    fn fmt<W: fmt::Write>(&self, f: &mut fmt::Formatter<W>) -> fmt::Result {
        let Some((first, others)) = self.items.as_slice().split_first() else {
            return Ok(());
        };
        write!(f, "{first}")?;
        for other in others {
            write!(f, " {other}")?;
        }
        Ok(())
    }
}
