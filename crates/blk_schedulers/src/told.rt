//! Settings as answers tell them.

ghost use Rattle.std.specs.Prelude.{◌≡◌, IfOk, map};
ghost use Rattle.blk_schedulers.specs.Told.{set_of, told_setting};

use crate::positions::positions_name;
use crate::setting::{Setting, SettingValue};
use answer::{Set, Word};
use std::alloc::{AllocError, Global};

/// What a setting is set to.
fn set_of(value: SettingValue) -> Set
    ensures { result ≡ set_of value }
{
    match value {
        SettingValue::Number(number) => Set::Number(number),
        SettingValue::Switch(is_on) => Set::Switch(is_on),
        SettingValue::Positions(positions) => Set::Word(Word::new(positions_name(positions))),
    }
}

/// Settings by their names, as an answer tells them. Fails only when out of memory.
pub fn told_settings(
    alloc: Global,
    settings: &[Setting],
) -> Result<Vec<answer::Setting>, AllocError>
    ensures { IfOk result (λ all. all.items ≡ map (λ s. told_setting s) settings.now) }
{
    let mut all = Vec::new(alloc);
    for setting in settings {
        all.push(answer::Setting {
            name: Word::new(setting.name()),
            set: set_of(setting.value()),
        })?;
    }
    Ok(all)
}
