// The table of the fourteen rules: the kind of place each takes, whether it is determinate, and what it rewrites.
#![tactic(auto)]

ghost use Rattle.std.specs.Prelude.{◌≡◌, ◌<◌};
ghost use Rattle.akl.specs.Table.{rule_row};
ghost use Rattle.rule_table.specs.Rows.{takes_no, row_in};

// The kinds of places that rules take. An or-box that is a member of an or-box is told from the others.
#[derive(Clone, Copy)]
pub enum Takes {
    ConstraintAtom,
    ProgramAtom,
    Composition,
    Hiding,
    ChoiceStatement,
    ChoiceBox,
    GuardedGoal,
    AndBox,
    InnerOrBox,
    OtherOrBox,
}

#[derive(Clone, Copy)]
pub enum Mode {
    Determinate,
    Nondeterminate,
}

// What a rule rewrites: what stands at its place, or the box that holds it.
#[derive(Clone, Copy)]
pub enum Rewrites {
    Itself,
    Holder,
}

// A row of the table, if there is one.
#[derive(Clone, Copy)]
pub enum Row {
    Absent,
    Rule(Takes, Mode, Rewrites),
}

// The number of a kind of place.
pub fn takes_no(t: Takes) -> usize
    ensures { (result ≡ takes_no t) × (result < 10) }
{
    match t {
        Takes::ConstraintAtom => 0,
        Takes::ProgramAtom => 1,
        Takes::Composition => 2,
        Takes::Hiding => 3,
        Takes::ChoiceStatement => 4,
        Takes::ChoiceBox => 5,
        Takes::GuardedGoal => 6,
        Takes::AndBox => 7,
        Takes::InnerOrBox => 8,
        Takes::OtherOrBox => 9,
    }
}

// The table, rule 1 first.
const TABLE: [Row; 14] = [
    Row::Rule(Takes::ConstraintAtom, Mode::Determinate, Rewrites::Holder),
    Row::Rule(Takes::ProgramAtom, Mode::Determinate, Rewrites::Itself),
    Row::Rule(Takes::Composition, Mode::Determinate, Rewrites::Holder),
    Row::Rule(Takes::Hiding, Mode::Determinate, Rewrites::Holder),
    Row::Rule(Takes::ChoiceStatement, Mode::Determinate, Rewrites::Itself),
    Row::Rule(Takes::ChoiceBox, Mode::Determinate, Rewrites::Holder),
    Row::Rule(Takes::GuardedGoal, Mode::Determinate, Rewrites::Holder),
    Row::Rule(Takes::GuardedGoal, Mode::Determinate, Rewrites::Holder),
    Row::Rule(Takes::AndBox, Mode::Determinate, Rewrites::Itself),
    Row::Rule(Takes::ChoiceBox, Mode::Determinate, Rewrites::Holder),
    Row::Rule(Takes::GuardedGoal, Mode::Determinate, Rewrites::Holder),
    Row::Rule(Takes::ChoiceBox, Mode::Nondeterminate, Rewrites::Holder),
    Row::Rule(Takes::GuardedGoal, Mode::Determinate, Rewrites::Holder),
    Row::Rule(Takes::InnerOrBox, Mode::Determinate, Rewrites::Holder),
];

// The row of the rule of a number; the rules are numbered from 1.
pub fn row_of(r: usize) -> Row
    ensures { result ≡ row_in (rule_row r) }
{
    if r == 0 {
        return Row::Absent;
    }
    if 14 < r {
        return Row::Absent;
    }
    TABLE[r - 1]
}
