//! The tokens of items.

ghost use Rattle.std.specs.Prelude.{map};
ghost use Rattle.sv_tree.specs.Printed.{Appends};
ghost use Rattle.sv_tree.specs.TreeRead.{all_of};
ghost use Rattle.sv_tree.specs.TreeStmt.{texts};
ghost use Rattle.sv_tree.specs.TreeItem.{gen_block_read, item_read, item_branch_read};

use crate::print::part::Print;
use crate::print::printer::Printer;
use crate::tree::item::{GenBlock, Item, ItemBranch};

impl Print for Item {
    ghost printed = { λ x. (item_read x).text.print };

    fn print(&self, out: &mut Printer) {
        print_item(out, self);
    }
}

/// Prints items, in order.
#[cycle(item)]
pub fn print_items(out: &mut Printer, items: &[Item])
    ensures { Appends out.old (texts (map item_read items.now)).print out.new }
{
    for item in items {
        print_item(out, item);
    }
}

/// Prints an item.
#[cycle(item)]
fn print_item(out: &mut Printer, tree: &Item)
    ensures { Appends out.old (item_read tree.now).text.print out.new }
{
    match tree {
        Item::Empty(semicolon) => out.push(*semicolon),
        Item::Import(import) => import.print(out),
        Item::Parameters {
            word,
            kind,
            settings,
            semicolon,
        } => {
            out.push(*word);
            kind.print(out);
            settings.print(out);
            out.push(*semicolon);
        }
        Item::Variables {
            kind,
            declarations,
            semicolon,
        } => {
            kind.print(out);
            declarations.print(out);
            out.push(*semicolon);
        }
        Item::Assigns {
            word,
            assignments,
            semicolon,
        } => {
            out.push(*word);
            assignments.print(out);
            out.push(*semicolon);
        }
        Item::Comb { word, body } => {
            out.push(*word);
            body.print(out);
        }
        Item::Star {
            word,
            at,
            star,
            body,
        } => {
            out.push(*word);
            out.push(*at);
            out.push(*star);
            body.print(out);
        }
        Item::ParenStar {
            word,
            at,
            open,
            star,
            close,
            body,
        } => {
            out.push(*word);
            out.push(*at);
            out.push(*open);
            out.push(*star);
            out.push(*close);
            body.print(out);
        }
        Item::Clocked {
            word,
            at,
            open,
            events,
            close,
            body,
        } => {
            out.push(*word);
            out.push(*at);
            out.push(*open);
            events.print(out);
            out.push(*close);
            body.print(out);
        }
        Item::Genvars {
            word,
            names,
            semicolon,
        } => {
            out.push(*word);
            names.print(out);
            out.push(*semicolon);
        }
        Item::Generate { word, items, end } => {
            out.push(*word);
            print_items(out, items.as_slice());
            out.push(*end);
        }
        Item::For { head, body } => {
            head.print(out);
            print_gen_block(out, body.get());
        }
        Item::If {
            branches,
            test,
            body,
        } => {
            print_item_branches(out, branches.as_slice());
            test.print(out);
            print_gen_block(out, body.get());
        }
        Item::IfElse { branches, last } => {
            print_item_branches(out, branches.as_slice());
            print_gen_block(out, last.get());
        }
        Item::Instance {
            module,
            overrides,
            name,
            open,
            connections,
            close,
            semicolon,
        } => {
            out.push(*module);
            overrides.print(out);
            out.push(*name);
            out.push(*open);
            connections.print(out);
            out.push(*close);
            out.push(*semicolon);
        }
    }
}

/// Prints the branches of a chain of `else if`.
#[cycle(item)]
fn print_item_branches(out: &mut Printer, branches: &[ItemBranch])
    ensures { Appends out.old (all_of (map item_branch_read branches.now)).print out.new }
{
    for branch in branches {
        branch.test.print(out);
        print_gen_block(out, &branch.body);
        out.push(branch.else_word);
    }
}

/// Prints an item or a block of items.
#[cycle(item)]
fn print_gen_block(out: &mut Printer, block: &GenBlock)
    ensures { Appends out.old (gen_block_read block.now).text.print out.new }
{
    match block {
        GenBlock::Item(item) => print_item(out, item.get()),
        GenBlock::Block {
            begin,
            label,
            items,
            end,
            end_label,
        } => {
            out.push(*begin);
            label.print(out);
            print_items(out, items.as_slice());
            out.push(*end);
            end_label.print(out);
        }
    }
}
