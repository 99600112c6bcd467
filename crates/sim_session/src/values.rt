//! The values of the variables, out of the words.
ghost use Rattle.std.specs.Prelude.{◌≡◌, ◌≤◌, length, true, vec_capacity};
ghost use Rattle.std.specs.Option.{option_copied};
ghost use Rattle.plan_types.specs.Machine as machine;
ghost use Rattle.plan_types.specs.Machine.{is_piece, values_of};
ghost use Rattle.sim_session.specs.Values.{zeros_of, put_word, put_words, is_short};
ghost use Rattle.sim_session.specs.Ready.{IsOrdinary};

use plan_types::{Built, Runner};
use rtl_ir::Var;
use rtl_pieces::Word;
use vs_base::Bits;

/// The width of a variable; 1 where there is none.
pub fn var_width(var: Option<&Var>) -> u32
    ensures value { result ≡ machine.width_if (option_copied var.entry) }
    ensures some { 1 ≤ result }
    ensures most { result ≤ 128 }
{
    match var {
        Some(var) => var.width,
        None => 1,
    }
}

fn is_piece(word: Word) -> bool
    ensures { result ≡ is_piece word }
{
    !word.holds.mem && !word.shadow && word.len > 0
}

// A value of 0 for each variable, in place of what was there, within the room that there is.
fn put_zeros(values: &mut Vec<Bits>, vars: &[Var])
    requires { length vars.now ≤ vec_capacity values.old }
    ensures items { values.new.items ≡ zeros_of vars.now }
    ensures capacity { vec_capacity values.new ≡ vec_capacity values.old }
{
    values.clear();
    for var in vars {
        values.push_reserved(Bits::new(var.width, 0));
    }
}

// Puts the bits of a word into the value of its variable.
fn put_word(values: &mut [Bits], word: Word, found: u64)
    requires { is_short word ≡ true }
    ensures { values.new ≡ put_word word found values.old }
{
    let item = word.holds.item as usize;
    if is_piece(word) && item < values.len() {
        let part = Bits::new(word.len, u128::from(found));
        values[item] = values[item].place(i64::from(word.holds.bit), part);
    }
}

// Puts the bits of all words.
fn put_all<R: Runner>(values: &mut [Bits], runner: &R, built: &Built)
    requires same { R.built runner.now ≡ built.now }
    requires words { length (R.machine runner.now).outside.words ≡ length built.now.layout.words.items }
    requires ordinary { IsOrdinary built.now.layout.words.items }
    ensures { values.new ≡ put_words built.now.layout.words.items (R.machine runner.now).outside.words values.old }
{
    let mut k: u32 = 0;
    let mut rest = built.layout.words.as_slice();
    'words: while let [word, more @ ..] = rest {
        put_word(values, *word, runner.word(k));
        k += 1;
        rest = more;
    }
}

/// The values of the variables, in place of what was there, within the room that there is.
pub fn put_values<R: Runner>(values: &mut Vec<Bits>, runner: &R, built: &Built)
    requires same { R.built runner.now ≡ built.now }
    requires words { length (R.machine runner.now).outside.words ≡ length built.now.layout.words.items }
    requires ordinary { IsOrdinary built.now.layout.words.items }
    requires room { length built.now.design.vars ≤ vec_capacity values.old }
    ensures items { values.new.items ≡ values_of built.now (R.machine runner.now) }
    ensures capacity { vec_capacity values.new ≡ vec_capacity values.old }
{
    put_zeros(values, built.design.vars.as_slice());
    put_all(values, runner, built);
}
