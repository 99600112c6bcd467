//! The tokens of a whole source.

ghost use Rattle.std.specs.Prelude.{◌≡◌, IfOk};
ghost use Rattle.sv_tree.specs.Printed.{Appends};
ghost use Rattle.sv_tree.specs.Tree as spec;
ghost use Rattle.sv_tree.specs.TreeRead.{each};

use crate::names::NoMemory;
use crate::print::item::print_items;
use crate::print::part::Print;
use crate::print::printer::Printer;
use crate::token::Token;
use crate::tree::source::{
    Description, Module, Parameter, ParameterList, Port, PortList, SourceTree,
};
use std::alloc::Global;

/// The tokens of a tree, in order; a tree that a parser made gives the tokens that it was made of.
///
/// Time and space are linear in the number of tokens. `NoMemory`: there was none left for them.
pub fn tokens_of(alloc: Global, tree: &SourceTree) -> Result<Vec<Token>, NoMemory>
    ensures { IfOk result (λ list. list.items ≡ spec.tokens tree.now) }
{
    let mut out = Printer::new(alloc);
    print_descriptions(&mut out, tree.descriptions.as_slice());
    out.into_tokens()
}

fn print_descriptions(out: &mut Printer, descriptions: &[Description])
    ensures { Appends out.old (each spec.read_description descriptions.now).print out.new }
{
    for description in descriptions {
        description.print(out);
    }
}

impl Print for Description {
    ghost printed = { λ x. (spec.read_description x).print };

    fn print(&self, out: &mut Printer) {
        match self {
            Description::Import(import) => import.print(out),
            Description::Module(module) => module.print(out),
        }
    }
}

impl Print for Module {
    ghost printed = { λ x. (spec.module_read x).print };

    fn print(&self, out: &mut Printer) {
        out.push(self.word);
        out.push(self.name);
        self.parameters.print(out);
        self.ports.print(out);
        out.push(self.semicolon);
        print_items(out, self.items.as_slice());
        out.push(self.end);
        self.end_label.print(out);
    }
}

impl Print for ParameterList {
    ghost printed = { λ x. (spec.parameter_list x).print };

    fn print(&self, out: &mut Printer) {
        out.push(self.hash);
        out.push(self.open);
        self.list.print(out);
        out.push(self.close);
    }
}

impl Print for Parameter {
    ghost printed = { λ x. (spec.parameter x).print };

    fn print(&self, out: &mut Printer) {
        self.word.print(out);
        self.kind.print(out);
        self.setting.print(out);
    }
}

impl Print for PortList {
    ghost printed = { λ x. (spec.port_list x).print };

    fn print(&self, out: &mut Printer) {
        out.push(self.open);
        self.list.print(out);
        out.push(self.close);
    }
}

impl Print for Port {
    ghost printed = { λ x. (spec.port x).print };

    fn print(&self, out: &mut Printer) {
        self.direction.print(out);
        self.kind.print(out);
        self.name.print(out);
    }
}
