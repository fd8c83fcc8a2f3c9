// The numbers of a text that is there whole, as a stored order or an argument is (document 01, "Printed runs").
#![tactic(auto)]

ghost use Rattle.std.specs.Prelude.{◌≡◌, length};
ghost use Rattle.words.specs.Words.{reading};
ghost use Rattle.words.specs.Scanner.{Ended, scanned_reading};

use words::BadWord;

// The numbers of a text.
pub fn scan(text: &[u8], list: &mut [u16; 32768]) -> Result<usize, BadWord>
    requires { length list.old ≡ 32768 }
    ensures ended { Ended (length list.old) result list.new }
    ensures list_after { scanned_reading (result, list.new) ≡ reading text.now }
{
    scanning::finish(scanning::piece(scanning::start(), text, list), list)
}
