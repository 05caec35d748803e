ghost use Rattle.std.specs.Prelude.{◌≡◌, ◌<◌, ◌≤◌, true, List, ℕ, length, IfSome};
ghost use Rattle.std.specs.List.{list_all};
ghost use Rattle.std.specs.Char.{is_ascii_digit};
ghost use Rattle.run_io.specs.Settings.{is_printable, is_label, is_number, accepts, setting_value, is_unset, count_set, is_taken, IsTaken, number_set, stem_set};
ghost use Rattle.run_io.specs.Lists.{AllOf};

use crate::options::Setting;
use crate::pairs::{number_in, word_behind};
use crate::stems::{is_stem, stem_in};
use crate::words::Word;

/// Whether all bytes are printable ASCII characters.
fn all_printable(bytes: &[u8]) -> bool
    ensures { result ≡ list_all is_printable bytes.now }
{
    bytes.iter().all(|byte| *byte >= 0x20 && *byte <= 0x7E)
}

/// Whether all bytes are decimal digits.
fn all_digits(bytes: &[u8]) -> bool
    ensures { result ≡ list_all is_ascii_digit bytes.now }
{
    bytes.iter().all(|byte| byte.is_ascii_digit())
}

/// Whether a word is a text of 1 to 32 printable characters.
#[tactic(auto, unfolding(crate::specs::Settings::is_label))]
fn is_label(word: &str) -> bool
    ensures { result ≡ is_label word.now }
{
    !word.is_empty() && word.len() <= 32 && all_printable(word.as_bytes())
}

/// Whether a word is a number of at most this many decimal digits.
#[tactic(auto, unfolding(crate::specs::Settings::is_number))]
fn is_number(word: &str, digits: usize) -> bool
    ensures { result ≡ is_number digits word.now }
{
    !word.is_empty() && word.len() <= digits && all_digits(word.as_bytes())
}

impl Setting {
    /// Whether the setting takes this word.
    #[tactic(auto, unfolding(crate::specs::Settings::accepts))]
    pub(crate) fn accepts(self, word: &str) -> bool
        ensures { result ≡ accepts self word.now }
    {
        match self {
            Setting::Title | Setting::Game | Setting::Artist | Setting::Comment => is_label(word),
            Setting::Length => is_number(word, 3),
            Setting::Fade => is_number(word, 5),
            Setting::Voices => is_stem(word),
        }
    }
}

/// Returns the word that a setting is set to, in pairs of an option and its value; empty if it is unset.
#[tactic(auto, unfolding(crate::specs::Settings::setting_value))]
pub fn setting_value(pairs: &[Word], setting: Setting) -> &str
    ensures { result.now ≡ setting_value pairs.now setting }
{
    word_behind(pairs, setting.option())
}

/// Whether a setting is unset: its option is missing.
pub fn is_unset(pairs: &[Word], setting: Setting) -> bool
    ensures { result ≡ is_unset pairs.now setting }
{
    setting_value(pairs, setting).is_empty()
}

/// Returns how many of these settings are set.
pub fn count_set(pairs: &[Word], settings: &[Setting]) -> usize
    ensures count { result ≡ count_set pairs.now settings.now }
    ensures within { result ≤ length settings.now }
{
    let Some((setting, rest)) = settings.split_first() else {
        return 0;
    };
    let others = count_set(pairs, rest);
    if is_unset(pairs, *setting) {
        others
    } else {
        others + 1
    }
}

/// Whether each of these settings is unset, or takes what it is set to.
#[tactic(auto, using(crate::proofs::SettingLemmas::are_taken))]
pub(crate) fn are_taken(pairs: &[Word], settings: &[Setting]) -> bool
    ensures test { result ≡ list_all (is_taken pairs.now) settings.now }
    ensures taken { result ≡ true → AllOf (IsTaken pairs.now) settings.now }
{
    settings.iter().all(|setting| is_unset(pairs, *setting)
        || setting.accepts(setting_value(pairs, *setting)))
}

/// Returns the number that a setting is set to: at most five decimal digits. None if it is unset.
#[tactic(auto, unfolding(crate::specs::Settings::number_set))]
pub fn number_set(pairs: &[Word], setting: Setting) -> Option<u32>
    ensures number { result ≡ number_set pairs.now setting }
    ensures within { IfSome result (λ number. number ≤ 99999) }
{
    number_in(setting_value(pairs, setting), 5, 99_999)
}

/// Returns the parts of the sound that `--voices` names: bit n is voice n, bit 8 the echo. None if it is unset.
#[tactic(auto, unfolding(crate::specs::Settings::stem_set))]
pub fn stem_set(pairs: &[Word]) -> Option<u16>
    ensures stem { result ≡ stem_set pairs.now }
    ensures within { IfSome result (λ stem. stem < 512) }
{
    stem_in(setting_value(pairs, Setting::Voices))
}
