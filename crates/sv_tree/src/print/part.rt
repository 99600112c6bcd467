//! Parts of the tree that are printed alike wherever they stand.

ghost use Rattle.std.specs.Prelude.{◌∷◌};
ghost use Rattle.sv_tree.specs.Printed.{Appends};
ghost use Rattle.sv_tree.specs.TreeRead.{Tokens, print_option, print_each};

use crate::print::printer::Printer;
use crate::token::Token;
use crate::tree::list::{CommaList, Joined};

/// What has tokens.
pub trait Print {
    ghost printed: { Self → Tokens → Tokens };

    /// Prints its tokens.
    fn print(&self, out: &mut Printer)
        ensures { Appends out.old (printed self.now) out.new };
}

impl Print for Token {
    ghost printed = { λ t r. t ∷ r };

    fn print(&self, out: &mut Printer) {
        out.push(*self);
    }
}

impl<T: Print> Print for Option<T> {
    ghost printed = { print_option T.printed };

    fn print(&self, out: &mut Printer) {
        if let Some(part) = self {
            part.print(out);
        }
    }
}

impl<T: Print> Print for CommaList<T> {
    ghost printed = { λ l r. T.printed l.first (print_each (λ j r. j.mark ∷ T.printed j.item r) l.more r) };

    fn print(&self, out: &mut Printer) {
        self.first.print(out);
        for joined in self.more.as_slice() {
            out.push(joined.mark);
            joined.item.print(out);
        }
    }
}

/// Prints tokens, in order.
pub fn print_tokens(out: &mut Printer, tokens: &[Token])
    ensures { Appends out.old (print_each (λ t r. t ∷ r) tokens.now) out.new }
{
    for token in tokens {
        out.push(*token);
    }
}
