//! The tokens of expressions.

ghost use Rattle.std.specs.Prelude.{map};
ghost use Rattle.sv_tree.specs.Printed.{Appends};
ghost use Rattle.sv_tree.specs.TreeRead.{all_of};
ghost use Rattle.sv_tree.specs.TreeExpr.{expr, args_read, select_read, choice_read, step_read, operators};

use crate::print::part::{Print, print_tokens};
use crate::print::printer::Printer;
use crate::tree::expr::{Args, Choice, Expr, Select, Step};

impl Print for Expr {
    ghost printed = { λ e. (expr e).print };

    fn print(&self, out: &mut Printer) {
        print_expr(out, self);
    }
}

/// Prints an expression.
#[cycle(expr)]
pub fn print_expr(out: &mut Printer, tree: &Expr)
    ensures { Appends out.old (expr tree.now).print out.new }
{
    match tree {
        Expr::Decimal(token) => out.push(*token),
        Expr::Based(token) => out.push(*token),
        Expr::Sized { size, digits } => {
            out.push(*size);
            out.push(*digits);
        }
        Expr::Fill(token) => out.push(*token),
        Expr::Name { name, selects } => {
            out.push(*name);
            print_selects(out, selects.as_slice());
        }
        Expr::Paren { open, inner, close } => {
            out.push(*open);
            print_expr(out, inner.get());
            out.push(*close);
        }
        Expr::Concat {
            open,
            first,
            more,
            close,
        } => {
            out.push(*open);
            print_expr(out, first.get());
            print_steps(out, more.as_slice());
            out.push(*close);
        }
        Expr::Repeat {
            open,
            count,
            inner_open,
            first,
            more,
            inner_close,
            close,
        } => {
            out.push(*open);
            print_expr(out, count.get());
            out.push(*inner_open);
            print_expr(out, first.get());
            print_steps(out, more.as_slice());
            out.push(*inner_close);
            out.push(*close);
        }
        Expr::Call {
            name,
            open,
            args,
            close,
        } => {
            out.push(*name);
            out.push(*open);
            print_args(out, args);
            out.push(*close);
        }
        Expr::System {
            name,
            open,
            arg,
            close,
        } => {
            out.push(*name);
            out.push(*open);
            print_expr(out, arg.get());
            out.push(*close);
        }
        Expr::Prefix { operators, operand } => {
            print_tokens(out, operators.as_slice());
            print_expr(out, operand.get());
        }
        Expr::Level { first, more } => {
            print_expr(out, first.get());
            print_steps(out, more.as_slice());
        }
        Expr::Choose { choices, last } => {
            print_choices(out, choices.as_slice());
            print_expr(out, last.get());
        }
    }
}

/// Prints the arguments of a call.
#[cycle(expr)]
pub fn print_args(out: &mut Printer, args: &Args)
    ensures { Appends out.old (args_read args.now).print out.new }
{
    match args {
        Args::Empty => {}
        Args::Listed { first, more } => {
            print_expr(out, first.get());
            print_steps(out, more.as_slice());
        }
    }
}

/// Prints marks with the operands after them.
#[cycle(expr)]
pub fn print_steps(out: &mut Printer, steps: &[Step])
    ensures { Appends out.old (operators (map step_read steps.now)).print out.new }
{
    for step in steps {
        out.push(step.mark);
        print_expr(out, &step.operand);
    }
}

/// Prints the selects of a name.
#[cycle(expr)]
pub fn print_selects(out: &mut Printer, selects: &[Select])
    ensures { Appends out.old (all_of (map select_read selects.now)).print out.new }
{
    for select in selects {
        print_select(out, select);
    }
}

/// Prints a select.
#[cycle(expr)]
fn print_select(out: &mut Printer, select: &Select)
    ensures { Appends out.old (select_read select.now).print out.new }
{
    match select {
        Select::Bit { open, at, close } => {
            out.push(*open);
            print_expr(out, at.get());
            out.push(*close);
        }
        Select::Part {
            open,
            from,
            mark,
            to,
            close,
        } => {
            out.push(*open);
            print_expr(out, from.get());
            out.push(*mark);
            print_expr(out, to.get());
            out.push(*close);
        }
    }
}

/// Prints the tests and values of a chain of `?:`.
#[cycle(expr)]
fn print_choices(out: &mut Printer, choices: &[Choice])
    ensures { Appends out.old (all_of (map choice_read choices.now)).print out.new }
{
    for choice in choices {
        print_expr(out, &choice.test);
        out.push(choice.question);
        print_expr(out, &choice.value);
        out.push(choice.colon);
    }
}
