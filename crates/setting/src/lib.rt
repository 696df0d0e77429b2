// What a run is asked with, in one struct that is passed whole, by value.
#![tactic(auto)]

// The fields that the Rust's NormalModalLogic has for the frame, and whether contradiction checks are skipped.
#[derive(Clone, Copy, Debug, PartialEq, Eq)]
pub struct Setting {
    pub is_reflexive: bool,
    pub is_symmetric: bool,
    pub is_transitive: bool,
    pub skip: bool,
}

// What the flag byte asks.
impl From<u8> for Setting {
    ghost use Rattle.std.specs.Prelude.{◌≡◌};
    ghost use Rattle.definition.specs.Setting.{setting_of};
    ghost use Rattle.setting.specs.Asked.{asked};

    ghost from_gives = { λ flags setting. asked setting ≡ setting_of flags };

    fn from(flags: u8) -> Setting {
        Setting {
            is_reflexive: flags & 1 != 0,
            is_symmetric: flags & 2 != 0,
            is_transitive: flags & 4 != 0,
            skip: flags & 8 != 0,
        }
    }
}
