//! The tokens of the parts of items.

ghost use Rattle.sv_tree.specs.TreeExpr.{args_read};
ghost use Rattle.sv_tree.specs.TreeItem as spec;

use crate::print::expr::print_args;
use crate::print::part::Print;
use crate::print::printer::Printer;
use crate::tree::expr::Args;
use crate::tree::item::{
    Argument, Assignment, Connected, Connection, Connections, Declaration, Dimension, Event,
    Import, Initial, Linkage, Overrides,
};

impl Print for Args {
    ghost printed = { λ x. (args_read x).print };

    fn print(&self, out: &mut Printer) {
        print_args(out, self);
    }
}

impl Print for Linkage {
    ghost printed = { λ x. (spec.linkage x).print };

    fn print(&self, out: &mut Printer) {
        out.push(self.name);
        out.push(self.mark);
    }
}

impl Print for Argument {
    ghost printed = { λ x. (spec.argument x).print };

    fn print(&self, out: &mut Printer) {
        self.input.print(out);
        self.kind.print(out);
        self.name.print(out);
    }
}

impl Print for Import {
    ghost printed = { λ x. (spec.import_read x).print };

    fn print(&self, out: &mut Printer) {
        out.push(self.word);
        out.push(self.text);
        self.manner.print(out);
        self.linkage.print(out);
        out.push(self.function);
        self.result.print(out);
        out.push(self.name);
        out.push(self.open);
        self.args.print(out);
        out.push(self.close);
        out.push(self.semicolon);
    }
}

impl Print for Dimension {
    ghost printed = { λ x. (spec.dimension x).print };

    fn print(&self, out: &mut Printer) {
        match self {
            Dimension::Count { open, count, close } => {
                out.push(*open);
                count.print(out);
                out.push(*close);
            }
            Dimension::Bounds(range) => range.print(out),
        }
    }
}

impl Print for Initial {
    ghost printed = { λ x. (spec.initial x).print };

    fn print(&self, out: &mut Printer) {
        out.push(self.mark);
        self.value.print(out);
    }
}

impl Print for Declaration {
    ghost printed = { λ x. (spec.declaration x).print };

    fn print(&self, out: &mut Printer) {
        out.push(self.name);
        self.dimension.print(out);
        self.value.print(out);
    }
}

impl Print for Assignment {
    ghost printed = { λ x. (spec.assignment x).print };

    fn print(&self, out: &mut Printer) {
        self.target.print(out);
        out.push(self.mark);
        self.value.print(out);
    }
}

impl Print for Event {
    ghost printed = { λ x. (spec.event x).print };

    fn print(&self, out: &mut Printer) {
        out.push(self.edge);
        out.push(self.name);
    }
}

impl Print for Connected {
    ghost printed = { λ x. (spec.connected x).print };

    fn print(&self, out: &mut Printer) {
        out.push(self.open);
        self.value.print(out);
        out.push(self.close);
    }
}

impl Print for Connection {
    ghost printed = { λ x. (spec.connection x).print };

    fn print(&self, out: &mut Printer) {
        out.push(self.dot);
        out.push(self.name);
        self.value.print(out);
    }
}

impl Print for Connections {
    ghost printed = { λ x. (spec.connections x).print };

    fn print(&self, out: &mut Printer) {
        match self {
            Connections::Ordered(args) => args.print(out),
            Connections::Named(list) => list.print(out),
        }
    }
}

impl Print for Overrides {
    ghost printed = { λ x. (spec.overrides x).print };

    fn print(&self, out: &mut Printer) {
        out.push(self.hash);
        out.push(self.open);
        self.connections.print(out);
        out.push(self.close);
    }
}
