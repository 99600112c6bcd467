//! The inputs.
ghost use Rattle.std.specs.Prelude.{◌≡◌, slice_index_or, true};
ghost use Rattle.std.specs.List.{list_all};
ghost use Rattle.plan_types.specs.Machine.{put_inputs, no_number};
ghost use Rattle.run_tables.specs.Tables.{is_narrow};

use plan_types::InputWord;
use run_tables::{part, set_at};
use vs_base::Bits;

// Gives each word its bits of its input.
pub(crate) fn put(inputs: &[Bits], table: &[InputWord], words: &mut [u64])
    requires { list_all is_narrow table.now ≡ true }
    ensures { words.new ≡ put_inputs inputs.now table.now words.old }
{
    let mut rest = table;
    while let [word, more @ ..] = rest {
        let input = input_at(inputs, word.input);
        set_at(words, word.word, part(input, word.bit, word.len));
        rest = more;
    }
}

fn input_at(inputs: &[Bits], place: usize) -> Bits
    ensures { result ≡ slice_index_or inputs.now place no_number }
{
    match inputs.get(place) {
        Some(input) => *input,
        None => Bits::new(1, 0),
    }
}
