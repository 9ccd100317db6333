// The host's numbers of the kinds of a telegram.
ghost use Rattle.std.specs.Prelude.{◌≡◌};
ghost use Rattle.mbus_rules.specs.Host.{kind_number};
ghost use Rattle.mbus_telegrams.specs.Kinds.{kind_in};

use mbus_rules::Kind;

// The host's number of a kind.
pub fn kind_number(kind: Kind) -> u8
    ensures { result ≡ kind_number kind }
{
    kind as u8
}

// The kind of a number. One that is no kind's is taken as data, which no record of another number is and no request can be:
// theorems speak of that, so this is no `TryFrom`.
pub fn kind_in(n: u8) -> Kind
    ensures { result ≡ kind_in n }
{
    match n {
        1 => Kind::Ack,
        2 => Kind::Read,
        3 => Kind::Enter,
        4 => Kind::Leave,
        _ => Kind::Data,
    }
}
