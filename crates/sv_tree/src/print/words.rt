//! The tokens of types, labels, settings and heads.

ghost use Rattle.sv_tree.specs.Symbol.{is_fixed};
ghost use Rattle.sv_tree.specs.TreeStmt as stmt;
ghost use Rattle.sv_tree.specs.TreeWords as words;

use crate::print::part::Print;
use crate::print::printer::Printer;
use crate::tree::stmt::{LoopHead, LoopStep, Test};
use crate::tree::words::{DataType, Label, Range, Setting, WordType};

impl Print for Range {
    ghost printed = { λ x. (words.range x).print };

    fn print(&self, out: &mut Printer) {
        out.push(self.open);
        self.left.print(out);
        out.push(self.colon);
        self.right.print(out);
        out.push(self.close);
    }
}

impl Print for WordType {
    ghost printed = { λ x. (words.word_type is_fixed x).print };

    fn print(&self, out: &mut Printer) {
        out.push(self.word);
        self.sign.print(out);
    }
}

impl Print for DataType {
    ghost printed = { λ x. (words.data_type x).print };

    fn print(&self, out: &mut Printer) {
        match self {
            DataType::Vector { word, sign, range } => {
                out.push(*word);
                sign.print(out);
                range.print(out);
            }
            DataType::Fixed(fixed) => fixed.print(out),
            DataType::Signed { sign, range } => {
                out.push(*sign);
                range.print(out);
            }
            DataType::Ranged(range) => range.print(out),
        }
    }
}

impl Print for Label {
    ghost printed = { λ x. (words.label x).print };

    fn print(&self, out: &mut Printer) {
        out.push(self.colon);
        out.push(self.name);
    }
}

impl Print for Setting {
    ghost printed = { λ x. (words.setting x).print };

    fn print(&self, out: &mut Printer) {
        out.push(self.name);
        out.push(self.mark);
        self.value.print(out);
    }
}

impl Print for Test {
    ghost printed = { λ x. (stmt.test x).print };

    fn print(&self, out: &mut Printer) {
        out.push(self.word);
        out.push(self.open);
        self.test.print(out);
        out.push(self.close);
    }
}

impl Print for LoopStep {
    ghost printed = { λ x. (stmt.loop_step x).print };

    fn print(&self, out: &mut Printer) {
        match self {
            LoopStep::Set(setting) => setting.print(out),
            LoopStep::After { name, mark } => {
                out.push(*name);
                out.push(*mark);
            }
            LoopStep::Before { mark, name } => {
                out.push(*mark);
                out.push(*name);
            }
        }
    }
}

impl Print for LoopHead {
    ghost printed = { λ x. (stmt.stmt_loop x).print };

    fn print(&self, out: &mut Printer) {
        out.push(self.word);
        out.push(self.open);
        self.kind.print(out);
        self.start.print(out);
        out.push(self.first);
        self.test.print(out);
        out.push(self.second);
        self.step.print(out);
        out.push(self.close);
    }
}
