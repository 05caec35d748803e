// The tags of a sound file, by the arguments of a command.
ghost use Rattle.std.specs.Prelude.{◌≡◌, true};
ghost use Rattle.run_io.specs.Settings.{IsTaken};
ghost use Rattle.run_io.specs.Lists.{AllOf};
ghost use Rattle.snes_commands.specs.Tagging.{tag_settings, sets, then_set, tags_in, tagged_by};

use run_io::{Setting, Word, count_set, is_unset, setting_value};
use sound_tags::{Field, Tags, put_tags};

/// The settings of tags.
pub static TAG_SETTINGS: [Setting; 6] = [
    Setting::Title,
    Setting::Game,
    Setting::Artist,
    Setting::Comment,
    Setting::Length,
    Setting::Fade,
];

/// Sets a field to what the setting of its name is set to; changes nothing if it is unset.
#[tactic(auto, unfolding(crate::specs::Tagging::then_set))]
fn set_field(tags: &mut Tags, pairs: &[Word], setting: Setting, field: Field)
    requires named { sets setting field ≡ true }
    requires taken { IsTaken pairs.now setting }
    ensures { tags.new ≡ then_set pairs.now setting field tags.old }
{
    if is_unset(pairs, setting) {
        return;
    }
    let Ok(()) = tags.set(field, setting_value(pairs, setting)) else {
        unreachable!()
    };
}

/// Returns the tags that the arguments set.
#[tactic(auto, unfolding(crate::specs::Tagging::tags_in))]
fn tags_of(pairs: &[Word]) -> Tags
    requires { AllOf (IsTaken pairs.now) tag_settings }
    ensures { result ≡ tags_in pairs.now }
{
    let mut tags = Tags::none();
    set_field(&mut tags, pairs, Setting::Title, Field::Title);
    set_field(&mut tags, pairs, Setting::Game, Field::Game);
    set_field(&mut tags, pairs, Setting::Artist, Field::Artist);
    set_field(&mut tags, pairs, Setting::Comment, Field::Comment);
    set_field(&mut tags, pairs, Setting::Length, Field::Length);
    set_field(&mut tags, pairs, Setting::Fade, Field::Fade);
    tags
}

/// Writes the tags that the arguments set into a sound file. Changes nothing if they set none.
#[tactic(auto, unfolding(crate::specs::Tagging::tagged_by))]
fn tag(pairs: &[Word], file: &mut [u8])
    requires { AllOf (IsTaken pairs.now) tag_settings }
    ensures { file.new ≡ tagged_by pairs.now file.old }
{
    if count_set(pairs, &TAG_SETTINGS) == 0 || file.len() < 256 {
        return;
    }
    put_tags(&tags_of(pairs), file);
}

/// Returns a sound file with the tags that the arguments set; the file as it is if they set none.
pub fn tagged(pairs: &[Word], file: Vec<u8>) -> Vec<u8>
    requires { AllOf (IsTaken pairs.now) tag_settings }
    ensures { result.items ≡ tagged_by pairs.now file.items }
{
    let mut bytes = file;
    tag(pairs, bytes.as_mut_slice());
    bytes
}
