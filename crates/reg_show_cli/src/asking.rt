//! What the words of a command line ask for.
ghost use Rattle.std.specs.Prelude.{◌≡◌, ◌≢◌, ◌↔◌, ◌∷◌, [], ℕ, Bool, IfSome, MatchOption, None, Option, Some, map};
ghost use Rattle.std.specs.Prelude.{option_copied, true, slice_get, string_bytes};
ghost use Rattle.reg_cli.specs.Subcommands.{Text, behind_name};
ghost use Rattle.reg_outcomes.specs.declared.orders.kinds.OrderKind.{OrderKind as AnyKind};
ghost use Rattle.reg_show.specs.declared.Player.{Player as AnyPlayer};
ghost use Rattle.reg_show.specs.declared.Showing.{Showing as AnyShowing};
ghost use Rattle.reg_show.specs.declared.Showing.TheVariants.{DrawLarge};
ghost use Rattle.reg_show.specs.declared.showing.Form.{Form as AnyForm};
ghost use Rattle.reg_show.specs.declared.showing.View.{View as AnyView};
ghost use Rattle.reg_commands.specs.declared.command.Command.{Command as AnyCommand};
ghost use Rattle.reg_show_cli.specs.declared.topics.Topic.{Topic as AnyTopic};
ghost use Rattle.reg_show_cli.specs.declared.words.Asked.{Asked as AnyAsked};
ghost use Rattle.reg_show_cli.specs.Lines.{IsAllLine, IsFindLine, IsHelpLine, IsHelpWith, IsJudgeLine, IsLineOf};
ghost use Rattle.reg_show_cli.specs.Lines.{IsMergeLine, IsOneOutcomeLine, IsOutcomesLine, IsScheduleLine, IsShortLine};
ghost use Rattle.reg_show_cli.specs.Lines.{IsShowLine, IsStoryLine, IsVerifyLine, IsVersionLine, IsWhyLine, show_words};
ghost use Rattle.reg_show_cli.specs.Lines.{text_line};
ghost use Rattle.reg_show_cli.specs.Topics.{topic_name};

use crate::flags::{
    Plays, behind, form_said, judging_said, line_of, number_alone, player_said, plays_said,
    short_said,
};
use crate::topics::Topic;
use crate::words::Asked;
use reg_commands::Command;
use reg_observed::JudgeFlags;
use reg_outcomes::OrderKind;
use reg_show::{Form, Player, Showing, View};

/// The last number of an outcome that the words can say. There may be fewer outcomes.
pub const LAST_OUTCOME: u32 = u32::MAX;

/// Whether this word stands at this place.
fn is_at(words: &[String], place: usize, word: &str) -> bool
    ensures { result ≡ true ↔ slice_get (map string_bytes words.now) place ≡ Some word.now }
{
    if place >= words.len() {
        return false;
    }
    words[place].as_str() == word
}

/// Whether these two words stand after the program's name.
fn are_two(words: &[String], first: &str, second: &str) -> bool
    ensures { result ≡ true ↔ behind_name words.now ≡ first.now ∷ second.now ∷ [] }
{
    if words.len() != 3 {
        return false;
    }
    if !is_at(words, 1, first) {
        return false;
    }
    is_at(words, 2, second)
}

/// Whether the words ask for all outcomes.
fn asks_all(words: &[String]) -> bool
    ensures { result ≡ true ↔ IsAllLine (behind_name words.now) }
{
    are_two(words, "outcomes", "--all")
}

/// Which order of a history the words ask to find, and None where they ask for none.
fn order_asked(words: &[String]) -> Option<OrderKind>
    ensures { MatchOption result ((kind : AnyKind) → ¬ IsFindLine (behind_name words.now) kind)
        (IsFindLine (behind_name words.now)) }
{
    if are_two(words, "find", "serial") {
        return Some(OrderKind::Serial);
    }
    if are_two(words, "find", "points") {
        return Some(OrderKind::Points);
    }
    None
}

/// Whether this word alone stands after the program's name.
fn is_alone(words: &[String], word: &str) -> bool
    ensures { result ≡ true ↔ behind_name words.now ≡ word.now ∷ [] }
{
    if words.len() != 2 {
        return false;
    }
    is_at(words, 1, word)
}

/// The number of the outcome that the words ask for, and None where they ask for none.
fn outcome_asked(words: &[String]) -> Option<u32>
    ensures { MatchOption result ((number : ℕ) → ¬ IsOneOutcomeLine (behind_name words.now) number)
        (IsOneOutcomeLine (behind_name words.now)) }
{
    let flags = behind(line_of(words), "outcomes")?;
    let number = number_alone(flags, "--all", LAST_OUTCOME as u64)?;
    if number == 0 {
        return None;
    }
    Some(number as u32)
}

/// The player whose play the words ask for, and None where they ask for no schedule.
fn player_asked(words: &[String]) -> Option<Player>
    ensures { MatchOption result ((player : AnyPlayer) → ¬ IsScheduleLine (behind_name words.now) player)
        (IsScheduleLine (behind_name words.now)) }
{
    let flags = behind(line_of(words), "schedule")?;
    player_said(flags)
}

/// The player whose play the words ask for in short, and None where they ask for no short schedule.
fn short_asked(words: &[String]) -> Option<Player>
    ensures { MatchOption result ((player : AnyPlayer) → ¬ IsShortLine (behind_name words.now) player)
        (IsShortLine (behind_name words.now)) }
{
    let flags = behind(line_of(words), "schedule")?;
    short_said(flags)
}

/// The plays that the words ask to count, and None where they ask for none.
fn plays_asked(words: &[String]) -> Option<Plays>
    ensures { MatchOption result ((plays : ℕ) (seed : Option ℕ) → ¬ IsOutcomesLine (behind_name words.now) plays seed)
        (λ p. IsOutcomesLine (behind_name words.now) p.plays p.seed) }
{
    let flags = behind(line_of(words), "outcomes")?;
    plays_said(flags)
}

/// How the words ask to judge a history, and None where they ask for none of it.
fn judging_asked(words: &[String]) -> Option<JudgeFlags<'_>>
    ensures { MatchOption result
        ((first : Option Text) (report : Bool) → ¬ IsJudgeLine (behind_name words.now) first report)
        (λ f. IsJudgeLine (behind_name words.now) (option_copied f.first) f.report) }
{
    let flags = behind(line_of(words), "judge")?;
    judging_said(flags)
}

/// What of `awreg` the words ask for, and None where they ask for nothing of it.
fn text_asked(words: &[String]) -> Option<Command>
    ensures { MatchOption result ((command : AnyCommand) → ¬ (behind_name words.now ≡ text_line command))
        (λ command. behind_name words.now ≡ text_line command) }
{
    if is_alone(words, "replay") {
        return Some(Command::Replay);
    }
    if is_alone(words, "check") {
        return Some(Command::Check);
    }
    if is_alone(words, "play") {
        return Some(Command::Play { fair: false });
    }
    if are_two(words, "play", "--fair") {
        return Some(Command::Play { fair: true });
    }
    None
}

/// What this word alone names that can be shown.
fn showing_named(word: &str) -> Option<Showing>
    ensures read { IfSome result (λ showing. show_words showing ≡ word.now ∷ []) }
    ensures whole { (showing : AnyShowing) → show_words showing ≡ word.now ∷ [] → result ≡ Some showing }
{
    match word {
        "trace" => Some(Showing::Trace),
        "draw" => Some(Showing::Draw),
        "data" => Some(Showing::Data),
        "page" => Some(Showing::Page),
        "rest" => Some(Showing::Rest),
        _ => None,
    }
}

/// The form in which the words ask for a large drawing, and None where they ask for none.
fn large_asked(words: &[String]) -> Option<Form>
    ensures { MatchOption result
        ((form : AnyForm) → ¬ IsShowLine (behind_name words.now) (record { showing = DrawLarge; form = form }))
        (λ form. IsShowLine (behind_name words.now) (record { showing = DrawLarge; form = form })) }
{
    let flags = behind(behind(line_of(words), "draw")?, "--large")?;
    form_said(Showing::DrawLarge, flags)
}

/// What else the words ask to show, and None where they ask for nothing of it.
fn usual_asked(words: &[String]) -> Option<View>
    ensures { MatchOption result
        ((view : AnyView) → view.showing ≢ DrawLarge → ¬ IsShowLine (behind_name words.now) view)
        (IsShowLine (behind_name words.now)) }
{
    let (name, flags) = line_of(words).split_first()?;
    let showing = showing_named(name.as_str())?;
    let form = form_said(showing, flags)?;
    Some(View { showing, form })
}

/// What the words ask to show, and None where they ask for nothing of it.
fn view_asked(words: &[String]) -> Option<View>
    ensures { MatchOption result ((view : AnyView) → ¬ IsShowLine (behind_name words.now) view)
        (IsShowLine (behind_name words.now)) }
{
    match large_asked(words) {
        Some(form) => Some(View {
            showing: Showing::DrawLarge,
            form,
        }),
        None => usual_asked(words),
    }
}

/// The words after the program's name, where they are two.
fn two_words(words: &[String]) -> Option<(&str, &str)>
    ensures read { IfSome result (λ p. behind_name words.now ≡ p.0.now ∷ p.1.now ∷ []) }
    ensures whole { result ≡ None → (first second : Text) → ¬ (behind_name words.now ≡ first ∷ second ∷ []) }
{
    let (first, rest) = line_of(words).split_first()?;
    let (second, more) = rest.split_first()?;
    if more.is_empty() {
        Some((first.as_str(), second.as_str()))
    } else {
        None
    }
}

/// The command with which the words ask for help, and None where they ask for none.
fn topic_asked(words: &[String]) -> Option<Topic>
    ensures { MatchOption result ((topic : AnyTopic) → ¬ IsHelpWith (behind_name words.now) (topic_name topic))
        (λ topic. IsHelpWith (behind_name words.now) (topic_name topic)) }
{
    let (first, second) = two_words(words)?;
    if first == "help" {
        return Topic::named(second);
    }
    match second {
        "-h" | "--help" => Topic::named(first),
        _ => None,
    }
}

/// Whether the words ask for help with no command.
fn asks_whole_help(words: &[String]) -> bool
    ensures { result ≡ true ↔ IsHelpLine (behind_name words.now) None }
{
    is_alone(words, "help") || is_alone(words, "-h") || is_alone(words, "--help")
}

/// With which command, or with none, the words ask for help; and None where they ask for no help.
fn help_asked(words: &[String]) -> Option<Option<Topic>>
    ensures { MatchOption result ((topic : Option AnyTopic) → ¬ IsHelpLine (behind_name words.now) topic)
        (IsHelpLine (behind_name words.now)) }
{
    if asks_whole_help(words) {
        return Some(None);
    }
    topic_asked(words).map(Some)
}

/// What words ask for that say no number and no player.
fn plain_asked(words: &[String]) -> Option<Asked<'_>>
    ensures asked { IfSome result (λ asked. IsLineOf asked (behind_name words.now)) }
    ensures why { result ≡ None → ¬ IsWhyLine (behind_name words.now) }
    ensures verify { result ≡ None → ¬ IsVerifyLine (behind_name words.now) }
    ensures merge { result ≡ None → ¬ IsMergeLine (behind_name words.now) }
    ensures story { result ≡ None → ¬ IsStoryLine (behind_name words.now) }
    ensures version { result ≡ None → ¬ IsVersionLine (behind_name words.now) }
    ensures all { result ≡ None → ¬ IsAllLine (behind_name words.now) }
    ensures help { result ≡ None → (topic : Option AnyTopic) → ¬ IsHelpLine (behind_name words.now) topic }
{
    if is_alone(words, "why") {
        return Some(Asked::Why);
    }
    if is_alone(words, "verify") {
        return Some(Asked::Verify);
    }
    if is_alone(words, "merge") {
        return Some(Asked::Merge);
    }
    if is_alone(words, "story") {
        return Some(Asked::Story);
    }
    if is_alone(words, "--version") {
        return Some(Asked::Version);
    }
    if asks_all(words) {
        return Some(Asked::AllOutcomes);
    }
    match help_asked(words) {
        Some(topic) => Some(Asked::Help { topic }),
        None => None,
    }
}

/// What the words ask for, and None where they ask for nothing. The first word is the program's name.
pub fn ask(words: &[String]) -> Option<Asked<'_>>
    ensures { MatchOption result ((asked : AnyAsked) → ¬ IsLineOf asked (behind_name words.now))
        (λ asked. IsLineOf asked (behind_name words.now)) }
{
    if let Some(asked) = plain_asked(words) {
        return Some(asked);
    }
    if let Some(flags) = judging_asked(words) {
        return Some(Asked::Judge { flags });
    }
    if let Some(command) = text_asked(words) {
        return Some(Asked::Text { command });
    }
    if let Some(view) = view_asked(words) {
        return Some(Asked::Show { view });
    }
    if let Some(number) = outcome_asked(words) {
        return Some(Asked::Outcome { number });
    }
    if let Some(kind) = order_asked(words) {
        return Some(Asked::Find { kind });
    }
    if let Some(player) = player_asked(words) {
        return Some(Asked::Schedule { player });
    }
    if let Some(player) = short_asked(words) {
        return Some(Asked::ShortSchedule { player });
    }
    match plays_asked(words) {
        Some(Plays { plays, seed }) => Some(Asked::Outcomes { plays, seed }),
        None => None,
    }
}
