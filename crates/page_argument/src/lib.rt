// The pages that the program of run sheets is asked for, by its argument (document 02, K3).
#![tactic(auto)]

ghost use Rattle.std.specs.Prelude.{◌≡◌, ◌≤◌, length, take};
ghost use Rattle.page_argument.specs.PageArgument.{sole_number, asked_by};
ghost use Rattle.page_argument.specs.declared.Asked.TheVariants.{One};

use whole_text::scan;

// The pages that are asked for: all of a sheet's, or the one with a number. It is no `Option`, since `All` says what
// `None` would not.
#[derive(Clone, Copy)]
pub enum Asked {
    All,
    One(usize),
}

// What an argument asks for: the page whose number it is. One that is no number, as the words of an order are read, asks for page 0, which no sheet has.
#[tactic(auto, using(crate::proofs::Argument::asked))]
pub fn asked_by(argument: &[u8]) -> Asked
    ensures { result ≡ asked_by argument.now }
{
    let mut list = [0u16; 32768];
    match scan(argument, &mut list) {
        Ok(count) => the_number(&list, count),
        Err(_) => Asked::One(0),
    }
}

// The page that so many numbers at the front of a list ask for.
#[tactic(auto, using(crate::proofs::Argument::sole_one, crate::proofs::Argument::sole_other))]
fn the_number(list: &[u16], count: usize) -> Asked
    requires { count ≤ length list.now }
    ensures { result ≡ One (sole_number (take count list.now)) }
{
    if count == 1 {
        return Asked::One(list[0] as usize);
    }
    Asked::One(0)
}
