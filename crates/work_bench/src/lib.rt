// The judgement of `work_judge` as a function that C and Rust can call, for bench/solver.
#![tactic(auto)]

ghost use Rattle.std.specs.Prelude.{◌≡◌};
ghost use Rattle.mem_numbers.specs.Numbers.{shorts};
ghost use Rattle.mem_words.specs.Words.{words};
ghost use Rattle.work_judge.specs.Judging.{Judgement};
ghost use Rattle.work_bench.specs.Number.{number, Numbered};

use work_judge::Judged;

// The number of an answer.
fn number_of(r: Judged) -> u32
    ensures { result ≡ number r }
{
    match r {
        Judged::Unfit => 0,
        Judged::NoSpace => 1,
        Judged::Silent => 2,
        Judged::Loudly => 3,
    }
}

// As `work_judge::judge`, with the answer's number.
#[unsafe(no_mangle)]
pub extern "C" fn solver_judge(
    t: &[u8],
    locals: &[u8],
    w: &mut [u8],
    from: usize,
    mid: usize,
    to: usize,
) -> u32
    ensures { Numbered (Judgement (words t.now) from mid to (shorts locals.now) w.old) result }
{
    let r = work_judge::judge(t, locals, w, from, mid, to);
    number_of(r)
}
