// What faults are called.
ghost use Rattle.std.specs.Prelude.{◌≡◌};
ghost use Rattle.lw_lang.specs.Texts.{fault_text};

/// What the fault of this number is called: a few words, as in a note. No fault has another number than 1 to 23.
pub fn fault_text(number: u8) -> &'static str
    ensures { result.now ≡ fault_text number }
{
    match number {
        1 => "no entry rule",
        2 => "second entry rule",
        3 => "entry makes no node",
        4 => "duplicate",
        5 => "unknown rule",
        6 => "unknown type",
        7 => "left recursion",
        8 => "reads nothing",
        9 => "repeats nothing",
        10 => "never ends",
        11 => "misplaced action",
        12 => "misplaced call",
        13 => "mixed data type rule",
        14 => "unknown property",
        15 => "wrong property form",
        16 => "mixed property",
        17 => "not a subtype",
        18 => "no name rule",
        19 => "circular type",
        20 => "circular call",
        21 => "bad call",
        22 => "bad assignment",
        23 => "too many rules",
        _ => "",
    }
}
