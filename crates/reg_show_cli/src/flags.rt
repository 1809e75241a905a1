//! The words of a command line, one after another: a word, or a flag with a number.
ghost use Rattle.std.specs.Prelude.{◌≡◌, ◌≤◌, ◌↔◌, ◌∷◌, ◌++◌, [], ℕ, Bool, List, Option, Some, IfSome, IsSomeAnd};
ghost use Rattle.std.specs.Prelude.{MatchOption, codes, map, option_copied, string_bytes, true};
ghost use Rattle.std.specs.Fmt.{decimal};
ghost use Rattle.reg_cli.specs.Subcommands.{Text};
ghost use Rattle.reg_cli.specs.Subcommands.{behind_name};
ghost use Rattle.reg_show.specs.Seeds.{IsSeed};
ghost use Rattle.reg_show.specs.declared.showing.Form.{Form as AnyForm};
ghost use Rattle.reg_show.specs.declared.Player.{Player as AnyPlayer};
ghost use Rattle.reg_show.specs.declared.Player.TheVariants.{Fair};
ghost use Rattle.reg_show_cli.specs.Lines.{IsFormFlag, IsPictureFlag, SaysJudge, SaysPlayer, SaysPlays, SaysSeed};
ghost use Rattle.reg_show_cli.specs.Lines.{SaysShort, first_words, player_words, plays_words, report_words, seed_words};
ghost use Rattle.reg_show_cli.specs.Lines.{short_words};

use reg_base::limits::LAST_SEED;
use reg_observed::JudgeFlags;
use reg_show::{Form, MOST_PLAYS, Player, Showing};
use reg_text::numeral_within;

/// How many plays are counted where the words don't say.
pub const USUAL_PLAYS: u32 = 1_000;

/// How many plays, and from which seed on, where one is said.
#[derive(Clone, Copy)]
pub(crate) struct Plays {
    pub(crate) plays: u32,
    pub(crate) seed: Option<u64>,
}

/// The words after the program's name.
pub(crate) fn line_of(words: &[String]) -> &[String]
    ensures { map string_bytes result.now ≡ behind_name words.now }
{
    match words.split_first() {
        Some((_, line)) => line,
        None => words,
    }
}

/// The words after this one, where the words begin with it.
pub(crate) fn behind<'a>(words: &'a [String], word: &str) -> Option<&'a [String]>
    ensures read { IfSome result (λ rest. map string_bytes words.now ≡ word.now ∷ map string_bytes rest.now) }
    ensures whole { (rest : List Text) → map string_bytes words.now ≡ word.now ∷ rest
        → IsSomeAnd result (λ r. map string_bytes r.now ≡ rest) }
{
    let (first, rest) = words.split_first()?;
    if first.as_str() == word {
        Some(rest)
    } else {
        None
    }
}

/// The form that the flags of a picture say.
fn picture_form(flags: &[String]) -> Option<Form>
    ensures { MatchOption result ((form : AnyForm) → ¬ IsPictureFlag form (map string_bytes flags.now))
        (λ form. IsPictureFlag form (map string_bytes flags.now)) }
{
    if flags.is_empty() {
        return Some(Form::Short);
    }
    if is_word(flags, "--whole") {
        Some(Form::Whole)
    } else {
        None
    }
}

/// In which form something is shown of a play, by its flags.
pub(crate) fn form_said(showing: Showing, flags: &[String]) -> Option<Form>
    ensures { MatchOption result ((form : AnyForm) → ¬ IsFormFlag showing form (map string_bytes flags.now))
        (λ form. IsFormFlag showing form (map string_bytes flags.now)) }
{
    match showing {
        Showing::Trace | Showing::Draw | Showing::DrawLarge | Showing::Page => picture_form(flags),
        Showing::Data | Showing::Rest if flags.is_empty() => Some(Form::Whole),
        Showing::Data | Showing::Rest => None,
    }
}

/// The number after this flag, up to the most, and the words after it, where the words begin with both.
fn numbered<'a>(words: &'a [String], flag: &str, most: u64) -> Option<(u64, &'a [String])>
    ensures read { IfSome result
        (λ p. (map string_bytes words.now ≡ flag.now ∷ decimal p.0 ∷ map string_bytes p.1.now) × (p.0 ≤ most)) }
    ensures whole { (number : ℕ) (rest : List Text) → number ≤ most
        → map string_bytes words.now ≡ flag.now ∷ decimal number ∷ rest
        → IsSomeAnd result (λ p. (p.0 ≡ number) × (map string_bytes p.1.now ≡ rest)) }
{
    let (word, rest) = behind(words, flag)?.split_first()?;
    let number = numeral_within(word.as_bytes(), most)?;
    Some((number, rest))
}

/// The number after this flag, where these are all the words.
pub(crate) fn number_alone(words: &[String], flag: &str, most: u64) -> Option<u64>
    ensures { MatchOption result
        ((number : ℕ) → number ≤ most → ¬ (map string_bytes words.now ≡ flag.now ∷ decimal number ∷ []))
        (λ number. (number ≤ most) × (map string_bytes words.now ≡ flag.now ∷ decimal number ∷ [])) }
{
    let (number, rest) = numbered(words, flag, most)?;
    if rest.is_empty() { Some(number) } else { None }
}

/// Whether this is the only word.
fn is_word(words: &[String], word: &str) -> bool
    ensures { result ≡ true ↔ map string_bytes words.now ≡ word.now ∷ [] }
{
    match behind(words, word) {
        Some(rest) => rest.is_empty(),
        None => false,
    }
}

/// The seed that flags say, where they say no more; no seed where there are no flags.
fn seed_said(flags: &[String]) -> Option<Option<u64>>
    ensures { MatchOption result ((seed : Option ℕ) → ¬ SaysSeed (map string_bytes flags.now) seed)
        (SaysSeed (map string_bytes flags.now)) }
{
    if flags.is_empty() {
        return Some(None);
    }
    number_alone(flags, "--seed", LAST_SEED).map(Some)
}

/// The player that flags say.
pub(crate) fn player_said(flags: &[String]) -> Option<Player>
    ensures { MatchOption result ((player : AnyPlayer) → ¬ SaysPlayer (map string_bytes flags.now) player)
        (SaysPlayer (map string_bytes flags.now)) }
{
    if is_word(flags, "--fair") {
        return Some(Player::Fair);
    }
    match seed_said(flags) {
        Some(seed) => Some(Player::Seeded { seed }),
        None => None,
    }
}

/// Whether flags are that of the fair player and then `--short`.
fn is_fair_and_short(flags: &[String]) -> bool
    ensures { result ≡ true ↔ map string_bytes flags.now ≡ player_words Fair ++ short_words }
{
    match behind(flags, "--fair") {
        Some(rest) => is_word(rest, "--short"),
        None => false,
    }
}

/// The seed that flags say before `--short`.
fn seed_before_short(flags: &[String]) -> Option<u64>
    ensures { MatchOption result
        ((seed : ℕ) → seed ≤ LAST_SEED → ¬ (map string_bytes flags.now ≡ seed_words (Some seed) ++ short_words))
        (λ seed. (seed ≤ LAST_SEED) × (map string_bytes flags.now ≡ seed_words (Some seed) ++ short_words)) }
{
    let (seed, rest) = numbered(flags, "--seed", LAST_SEED)?;
    if is_word(rest, "--short") {
        Some(seed)
    } else {
        None
    }
}

/// The player that flags say beside `--short`, which stands before the player's flags or after them.
pub(crate) fn short_said(flags: &[String]) -> Option<Player>
    ensures { MatchOption result ((player : AnyPlayer) → ¬ SaysShort (map string_bytes flags.now) player)
        (SaysShort (map string_bytes flags.now)) }
{
    if let Some(rest) = behind(flags, "--short") {
        return player_said(rest);
    }
    if is_fair_and_short(flags) {
        Some(Player::Fair)
    } else {
        match seed_before_short(flags) {
            Some(seed) => Some(Player::Seeded { seed: Some(seed) }),
            None => None,
        }
    }
}

/// The first value that flags say, where they say no more; none where there are no flags.
fn first_said(flags: &[String]) -> Option<Option<&str>>
    ensures { MatchOption result ((first : Option Text) → ¬ (map string_bytes flags.now ≡ first_words first))
        (λ o. map string_bytes flags.now ≡ first_words (option_copied o)) }
{
    if flags.is_empty() {
        return Some(None);
    }
    let (value, rest) = behind(flags, "--first")?.split_first()?;
    if rest.is_empty() {
        Some(Some(value.as_str()))
    } else {
        None
    }
}

/// The first value that flags say before `--report`.
fn first_before_report(flags: &[String]) -> Option<&str>
    ensures { MatchOption result
        ((first : Text) → ¬ (map string_bytes flags.now ≡ first_words (Some first) ++ report_words true))
        (λ s. map string_bytes flags.now ≡ first_words (Some s.now) ++ report_words true) }
{
    let (value, rest) = behind(flags, "--first")?.split_first()?;
    if is_word(rest, "--report") {
        Some(value.as_str())
    } else {
        None
    }
}

/// How a history is to be judged, by flags of which `--report` isn't the first.
fn judging_by_first(flags: &[String]) -> Option<JudgeFlags<'_>>
    requires { (rest : List Text) → ¬ (map string_bytes flags.now ≡ codes "--report" ∷ rest) }
    ensures { MatchOption result
        ((first : Option Text) (report : Bool) → ¬ SaysJudge (map string_bytes flags.now) first report)
        (λ f. SaysJudge (map string_bytes flags.now) (option_copied f.first) f.report) }
{
    match first_said(flags) {
        Some(first) => Some(JudgeFlags {
            first,
            report: false,
        }),
        None => Some(JudgeFlags {
            first: Some(first_before_report(flags)?),
            report: true,
        }),
    }
}

/// How a history is to be judged, by its flags.
pub(crate) fn judging_said(flags: &[String]) -> Option<JudgeFlags<'_>>
    ensures { MatchOption result
        ((first : Option Text) (report : Bool) → ¬ SaysJudge (map string_bytes flags.now) first report)
        (λ f. SaysJudge (map string_bytes flags.now) (option_copied f.first) f.report) }
{
    match behind(flags, "--report") {
        Some(rest) => Some(JudgeFlags {
            first: first_said(rest)?,
            report: true,
        }),
        None => judging_by_first(flags),
    }
}

/// This number of plays, unless it is 0.
fn some_plays(plays: u64, seed: Option<u64>) -> Option<Plays>
    requires { plays ≤ MOST_PLAYS }
    ensures { MatchOption result (plays ≡ 0) (λ p. (1 ≤ plays) × (p.plays ≡ plays) × (p.seed ≡ seed)) }
{
    if plays == 0 {
        return None;
    }
    Some(Plays {
        plays: plays as u32,
        seed,
    })
}

/// The plays that flags say, where the first flag is that of a seed.
fn plays_behind_seed(flags: &[String]) -> Option<Plays>
    ensures { MatchOption result
        ((plays : ℕ) (seed : ℕ) → 1 ≤ plays → plays ≤ MOST_PLAYS → seed ≤ LAST_SEED
        → ¬ (map string_bytes flags.now ≡ seed_words (Some seed) ++ plays_words plays))
        (λ p. SaysPlays (map string_bytes flags.now) p.plays p.seed × IsSeed p.seed) }
{
    let (seed, rest) = numbered(flags, "--seed", LAST_SEED)?;
    let plays = number_alone(rest, "--plays", MOST_PLAYS as u64)?;
    some_plays(plays, Some(seed))
}

/// The plays that flags say, where this number of plays is said first, and these words after it.
fn plays_before_seed(plays: u64, rest: &[String]) -> Option<Plays>
    requires { plays ≤ MOST_PLAYS }
    ensures { MatchOption result ((seed : Option ℕ) → 1 ≤ plays → ¬ SaysSeed (map string_bytes rest.now) seed)
        (λ p. (1 ≤ plays) × (p.plays ≡ plays) × SaysSeed (map string_bytes rest.now) p.seed) }
{
    let seed = seed_said(rest)?;
    some_plays(plays, seed)
}

/// The plays that flags say, where the flags are no seed alone.
fn plays_flagged(flags: &[String]) -> Option<Plays>
    requires { (seed : Option ℕ) → ¬ SaysSeed (map string_bytes flags.now) seed }
    ensures { MatchOption result
        ((plays : ℕ) (seed : Option ℕ) → IsSeed seed → ¬ SaysPlays (map string_bytes flags.now) plays seed)
        (λ p. SaysPlays (map string_bytes flags.now) p.plays p.seed × IsSeed p.seed) }
{
    match numbered(flags, "--plays", MOST_PLAYS as u64) {
        Some((plays, rest)) => plays_before_seed(plays, rest),
        None => plays_behind_seed(flags),
    }
}

/// The plays that flags say.
pub(crate) fn plays_said(flags: &[String]) -> Option<Plays>
    ensures { MatchOption result
        ((plays : ℕ) (seed : Option ℕ) → IsSeed seed → ¬ SaysPlays (map string_bytes flags.now) plays seed)
        (λ p. SaysPlays (map string_bytes flags.now) p.plays p.seed × IsSeed p.seed) }
{
    if let Some(seed) = seed_said(flags) {
        return Some(Plays {
            plays: USUAL_PLAYS,
            seed,
        });
    }
    plays_flagged(flags)
}
