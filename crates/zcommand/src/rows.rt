//! Worked examples of the definitions. Each clause is one; the bodies do nothing.

ghost use Rattle.std.specs.Prelude.{◌≡◌, codes, Err, Ok};
ghost use Rattle.zcommand.specs.support.Rows.{text_asked};

use zarguments::WordsFault;

/// Words of the program, separated by spaces, and how many servers they ask for.
pub fn words_ask_for_servers()
    ensures none { text_asked (codes "zk script") ≡ Ok 1 }
    ensures three { text_asked (codes "zk script --servers 3") ≡ Ok 3 }
    ensures most { text_asked (codes "zk script --servers=16") ≡ Ok 16 }
    ensures too_few { text_asked (codes "zk script --servers 0") ≡ Err WordsFault.BadWords }
    ensures too_many { text_asked (codes "zk script --servers 17") ≡ Err WordsFault.BadWords }
    ensures a_byte_more { text_asked (codes "zk script --servers 257") ≡ Err WordsFault.BadWords }
    ensures nothing { text_asked (codes "zk") ≡ Err WordsFault.BadWords }
{}
