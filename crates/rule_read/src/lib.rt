// A word read at any position.
#![tactic(auto)]

ghost use Rattle.mem_words.specs.Words.{words, Read};

use mem_words::Word;

// The word at `j`; `Bad` past the end.
pub fn word_at(ws: &[u8], j: usize) -> Word
    ensures { Read (words ws.now) j result }
{
    let n = mem_words::count(ws);
    if n <= j {
        return Word::Bad;
    }
    mem_get::get(ws, j)
}
