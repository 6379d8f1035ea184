ghost use Rattle.std.specs.Prelude.{ℕ, Bool, List, ◌∷◌, IsTrue};
ghost use Rattle.std.specs.List.{list_all};
ghost use Rattle.spec_flow_text.specs.Characters.{comma};
ghost use Rattle.spec_flow_text.specs.Printed.{list_printed};
ghost use Rattle.text_numbers.specs.Added.{Adds};
ghost use Rattle.field_text.specs.CommaLists.{after_commas};

use std::alloc::AllocError;

/// A way to print the items of a list.
pub trait ItemPrinter {
    /// What the items are.
    type Item;

    /// The text of an item.
    ghost text: { Self.Item → List ℕ };

    /// Whether it can be printed.
    ghost is_printable: { Self.Item → Bool };

    /// Adds the text of an item. The only error is out of memory.
    fn print_item(item: &Self::Item, out: &mut String) -> Result<(), AllocError>
        requires { IsTrue (is_printable item.now) }
        ensures { Adds out.old out.new (text item.now) result };
}

fn print_after_comma<P: ItemPrinter>(item: &P::Item, out: &mut String) -> Result<(), AllocError>
    requires { IsTrue (P.is_printable item.now) }
    ensures { Adds out.old out.new (comma ∷ P.text item.now) result }
{
    out.push(',')?;
    P::print_item(item, out)
}

// Items that stand after another one.
fn print_others<P: ItemPrinter>(others: &[P::Item], out: &mut String) -> Result<(), AllocError>
    requires { IsTrue (list_all P.is_printable others.now) }
    ensures { Adds out.old out.new (after_commas P.text others.now) result }
{
    'others: for item in others {
        print_after_comma::<P>(item, out)?;
    }
    Ok(())
}

/// Adds the items with commas between them, or `drop` where there is none. The only error is out of memory.
pub fn print_list<P: ItemPrinter>(list: &[P::Item], out: &mut String) -> Result<(), AllocError>
    requires { IsTrue (list_all P.is_printable list.now) }
    ensures { Adds out.old out.new (list_printed P.text list.now) result }
{
    match list {
        [] => out.push_str("drop"),
        [first, others @ ..] => {
            P::print_item(first, out)?;
            print_others::<P>(others, out)
        }
    }
}
