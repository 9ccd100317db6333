// A refusal by its number.
ghost use Rattle.std.specs.Prelude.{◌≡◌, ◌+◌};

// The number by which something is refused. Documents 01 and 02 name a refusal by its number alone, and the definitions in specs/ do so too;
// the names are those of include/skarrowith.h.
#[derive(Clone, Copy, Debug, PartialEq, Eq)]
pub struct Refusal(pub u16);

impl Refusal {
    pub const EMPTY_LINE: Refusal = Refusal(1);

    pub const WRONG_CHARACTER: Refusal = Refusal(2);

    pub const ODD_PARITY: Refusal = Refusal(3);

    pub const WRONG_FIRST_BYTE: Refusal = Refusal(4);

    pub const WRONG_COUNT: Refusal = Refusal(5);

    pub const WRONG_LENGTHS: Refusal = Refusal(6);

    pub const WRONG_END: Refusal = Refusal(7);

    pub const WRONG_CHECKSUM: Refusal = Refusal(8);

    pub const WRONG_FORM: Refusal = Refusal(9);

    pub const WRONG_HEADER: Refusal = Refusal(10);

    pub const WRONG_ENTRY: Refusal = Refusal(11);

    pub const WRONG_VALUE: Refusal = Refusal(12);

    pub const WRONG_TIME: Refusal = Refusal(13);

    pub const QUANTITY_TWICE: Refusal = Refusal(14);

    pub const QUANTITY_MISSING: Refusal = Refusal(16);

    pub const ODD_BYTES: Refusal = Refusal(17);

    pub const NO_LINE: Refusal = Refusal(18);

    pub const UNWRITABLE: Refusal = Refusal(20);

    pub const TOO_FEW_PLACES: Refusal = Refusal(21);

    pub const BUNDLE_TOO_LONG: Refusal = Refusal(30);

    pub const BUNDLE_TOO_SHORT: Refusal = Refusal(31);

    pub const BUNDLE_WRONG_COUNT: Refusal = Refusal(32);

    pub const BUNDLE_CONTENTS_CUT: Refusal = Refusal(33);

    pub const BUNDLE_WRONG_ROW: Refusal = Refusal(34);

    pub const BUNDLE_WRONG_OFFSET: Refusal = Refusal(35);

    pub const BUNDLE_BYTES_LEFT: Refusal = Refusal(36);

    pub const BUNDLE_WRONG_CHARACTER: Refusal = Refusal(37);

    pub const BUNDLE_FULL: Refusal = Refusal(38);

    pub const BUNDLE_NO_SUCH_ROW: Refusal = Refusal(39);

    pub const EXCHANGE_TIME_BACK: Refusal = Refusal(40);

    pub const EXCHANGE_NOT_CALLED_FOR: Refusal = Refusal(41);

    pub const EXCHANGE_NO_REQUEST: Refusal = Refusal(42);

    pub const EXCHANGE_OTHER_REQUEST: Refusal = Refusal(43);

    pub const GAP_TOO_SHORT: Refusal = Refusal(50);

    pub const GAP_TOO_LONG: Refusal = Refusal(51);

    pub const WAKE_WRONG_COUNT: Refusal = Refusal(52);

    pub const COUNT_TOO_LARGE: Refusal = Refusal(60);

    pub const METER_COUNT_FALLS: Refusal = Refusal(61);

    pub const STANDARD_COUNT_NOT_RISING: Refusal = Refusal(62);

    pub const REPLAY_TOO_FEW_ANSWERS: Refusal = Refusal(63);

    pub const REPLAY_VOLUME_TOO_LARGE: Refusal = Refusal(64);

    pub const REPLAY_WRONG_INTERVAL: Refusal = Refusal(65);

    pub const METER_TIME_BACK: Refusal = Refusal(70);

    pub const METER_TOTAL_TOO_LARGE: Refusal = Refusal(71);

    pub const METER_WRONG_TEMPLATE: Refusal = Refusal(72);

    pub const CJT_WRONG_FRAME: Refusal = Refusal(80);

    pub const CJT_WRONG_SUM: Refusal = Refusal(81);

    pub const CJT_WRONG_ADDRESS: Refusal = Refusal(82);

    pub const CJT_WRONG_MARK: Refusal = Refusal(83);

    pub const CJT_WRONG_DIGITS: Refusal = Refusal(84);

    pub const CJT_WRONG_UNIT: Refusal = Refusal(85);

    pub const CJT_NOT_EXACT: Refusal = Refusal(86);

    pub const TEMPERATURE_TOO_HIGH: Refusal = Refusal(90);

    pub const RESISTANCE_OUTSIDE: Refusal = Refusal(91);

    pub const NO_SUCH_NUMBER: Refusal = Refusal(100);

    pub const NO_RECORD: Refusal = Refusal(101);

    // What a function for C answers: 256 plus the number.
    pub fn told(self) -> u32
        ensures { result ≡ 256 + self.0 }
    {
        256 + self.0 as u32
    }
}
