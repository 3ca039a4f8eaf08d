// From two texts to a store, with tables of its own on the stack: 1 to 7 come before 8, so that texts are judged even where the lent
// slices are too short. The tables have 528,950 bytes together.
#![tactic(auto)]

ghost use Rattle.refusals.specs.Refusals.{refused_with};
ghost use Rattle.start_outcome.specs.Outcome.{StartTo};
ghost use Rattle.start_begin.specs.Short.{Within};

use refusals::Refusal;
use start_lay::zeros;

// As `start_texts::texts_to_store`. The table of names is lent as long as the texts may need.
pub fn begin(program: &[u8], query: &[u8], store: &mut [u8], w: usize) -> Result<(), Refusal>
    requires { Within program.now query.now }
    ensures { StartTo program.now query.now store.old w store.new (refused_with result) }
{
    let mut cells = zeros::<61470>(); // 9 + 16,384 + 4,097 cells of three bytes
    let mut heads = zeros::<384>(); // 128 heads of three bytes
    let mut rules = zeros::<196632>(); // 4 * 16,384 + 8 words of three bytes
    let mut order = zeros::<32>(); // 16 numbers of two bytes
    let mut goal = zeros::<49188>(); // 4 * 4,097 + 8 words of three bytes
    let mut codes = zeros::<49152>(); // 16,384 codes of three bytes
    let mut firsts = zeros::<40980>(); // as many numbers of two bytes as there are cells
    let mut nexts = zeros::<40980>(); // as many
    let mut stack = zeros::<16384>(); // a byte for each bracket that may be open
    let mut binds = zeros::<40980>(); // as many as there are cells
    let mut saves = zeros::<32768>(); // 16,384 numbers of two bytes
    let e = 3 * (9 + program.len() + query.len());
    start_texts::texts_to_store(
        program,
        query,
        &mut cells[..e],
        &mut heads,
        &mut rules,
        &mut order,
        &mut goal,
        &mut codes,
        &mut firsts,
        &mut nexts,
        &mut stack,
        &mut binds,
        &mut saves,
        store,
        w,
    )
}
