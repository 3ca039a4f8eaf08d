// The header of a store as bytes.
#![tactic(auto)]

ghost use Rattle.std.specs.Prelude.{◌≡◌, [], ◌∷◌};
ghost use Rattle.store_form.specs.Sizes.{form_number};
ghost use Rattle.store_form.specs.Form.{numbers_bytes};

// The form's number, then the counts of nodes of names, of the program's words, of the query's variables and of the configuration's
// words, and the next fresh number; each in three bytes, the low byte first.
pub fn header_bytes(
    nodes: usize,
    rules: usize,
    variables: usize,
    words: usize,
    next: usize,
) -> [u8; 18]
    ensures { result ≡ numbers_bytes (form_number ∷ nodes ∷ rules ∷ variables ∷ words ∷ next ∷ []) }
{
    [
        2,
        0,
        0,
        (nodes % 256) as u8,
        (nodes / 256 % 256) as u8,
        (nodes / 65536 % 256) as u8,
        (rules % 256) as u8,
        (rules / 256 % 256) as u8,
        (rules / 65536 % 256) as u8,
        (variables % 256) as u8,
        (variables / 256 % 256) as u8,
        (variables / 65536 % 256) as u8,
        (words % 256) as u8,
        (words / 256 % 256) as u8,
        (words / 65536 % 256) as u8,
        (next % 256) as u8,
        (next / 256 % 256) as u8,
        (next / 65536 % 256) as u8,
    ]
}
