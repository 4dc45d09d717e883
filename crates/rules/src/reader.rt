//! The reader: an automaton over tokens with the open lists as its stack. It makes the terms of each item as soon as the item ends.
//! It follows the definition of the reading step by step, with the places of terms where the definition has rules.
ghost use Rattle.std.specs.Prelude.{◌≡◌, ℕ, ◌<◌, ◌≤◌, true, false, List, [], length, if◌then◌else◌, Some, None};
ghost use Rattle.rules.specs.Building.{Held};
ghost use Rattle.rules.specs.Following.{Finishes, Follows, Steps, Joined, after};
ghost use Rattle.rules.specs.Levels.{levels, crowded};
ghost use Rattle.rules.specs.declared.nest.OpenList.{OpenList};
ghost use Rattle.rules.specs.Memory.{view};
ghost use Rattle.rules.specs.Readers.{ReaderFollows, ReaderAtItem, ReaderSteps, ReaderTook, SameReader};
ghost use Rattle.rules.specs.declared.reader.Wants.TheVariants.{Item, Figure as WantsFigure, Bracket as WantsBracket};
ghost use Rattle.rules.specs.declared.tokens.Kind.TheVariants.{Number};
ghost use Rattle.rules.specs.Reading.{State, Frame, wants_item, wants_figure, wants_bracket, in_range, fits, figured, at_item, at_figure, at_bracket, step, close as closes, joined};
ghost use Rattle.rules.specs.Spelling.{Figure};

use crate::faults::RuleFault;
use crate::nest::{DEPTH, Nest};
use crate::terms::{TermKey, TermMemory};
use crate::tokens::{Kind, Token};
use crate::words::{Head, Word};

// What the reader waits for: an enum and no closure, since the definition of the reading names the same stages.
#[derive(Clone, Copy)]
pub enum Wants {
    // an item, or the closing bracket of a list that has some
    Item,
    Figure(Word),
    Bracket(Head),
    // nothing more: the whole rule stands at this place
    Nothing(u32),
}

// The number as a byte, where it lies from 1 to the limit.
fn in_range(value: u16, limit: u8) -> Option<u8>
    ensures { result ≡ (if in_range limit value then Some value else None) }
{
    let number = u8::try_from(value).ok()?;
    (1..=limit).contains(&number).then_some(number)
}

impl Word {
    // The head of the word with its figure.
    fn head(self, figure: u8) -> Head
        ensures { result ≡ figured self figure }
    {
        match self {
            Word::All => Head::All,
            Word::Any => Head::Any,
            Word::Least => Head::Least(figure),
            Word::Grid => Head::Grid(figure),
        }
    }
}

impl Head {
    // Whether so many items fit the head.
    fn fits(self, count: usize) -> bool
        requires { Figure self }
        ensures { result ≡ fits self count }
    {
        match self {
            Head::All | Head::Any => true,
            Head::Least(k) => usize::from(k) <= count,
            Head::Grid(w) => count % usize::from(w) == 0,
        }
    }
}

// After a word comes its figure, or its bracket where it takes none.
impl From<Word> for Wants {
    ghost from_gives = { λ word r. r ≡ after word };

    fn from(word: Word) -> Wants {
        match word {
            Word::All => Wants::Bracket(Head::All),
            Word::Any => Wants::Bracket(Head::Any),
            Word::Least | Word::Grid => Wants::Figure(word),
        }
    }
}

// A token where a word's figure is wanted.
fn at_figure(token: Token, word: Word) -> Result<Wants, RuleFault>
    ensures { (n : ℕ) (h : Held) (ls : List OpenList) (fs : List Frame) → Follows n h (WantsFigure word) ls (record { stage = wants_figure word; frames = fs }) → Steps n h result ls (at_figure token.place token.kind word fs) }
{
    let place = token.place;
    let Kind::Number(value) = token.kind else {
        return Err(RuleFault::Token(place));
    };
    let figure = in_range(value, 64).ok_or(RuleFault::Range(place))?;
    Ok(Wants::Bracket(word.head(figure)))
}

// A token where a list's bracket is wanted.
fn at_bracket(nest: &mut Nest, token: Token, head: Head) -> Result<Wants, RuleFault>
    ensures { (n : ℕ) (h : Held) (fs : List Frame) → Follows n h (WantsBracket head) (levels nest.old) (record { stage = wants_bracket head; frames = fs }) → Steps n h result (levels nest.new) (at_bracket token.place token.kind head fs) }
{
    let place = token.place;
    match token.kind {
        Kind::Open => {
            if nest.depth() >= DEPTH {
                return Err(RuleFault::Depth(place));
            }
            nest.open(head);
            Ok(Wants::Item)
        }
        _ => Err(RuleFault::Token(place)),
    }
}

// An item ends: it joins the innermost open list, or is the whole rule.
fn join(nest: &mut Nest, item: u32) -> Wants
    requires { crowded (levels nest.old) ≡ false }
    ensures { Joined item (levels nest.old) result (levels nest.new) }
{
    if nest.depth() == 0 {
        return Wants::Nothing(item);
    }
    nest.add(item);
    Wants::Item
}

// Reads the tokens of one text, over members up to n: the open lists, what is wanted next, and the memory of the terms made so far.
#[derive(Drop)]
pub struct Reader<'m, 'a> {
    pub(crate) nest: Nest,
    pub(crate) wants: Wants,
    pub(crate) terms: &'m mut TermMemory<'a>,
    pub(crate) n: u8,
}

// That some open lists of the definition are followed is asked of each call that takes an item, and is no fact of every reader:
// after a word it waits for something else.
impl<'m, 'a> Reader<'m, 'a> {
    // A closing bracket where an item is wanted.
    fn at_close(&mut self, place: usize) -> Result<Wants, RuleFault>
        requires { (fs : List Frame) × ReaderAtItem self.old fs }
        ensures steps { (fs : List Frame) → ReaderAtItem self.old fs → ReaderSteps self.new result (closes place fs) }
        ensures same { SameReader self.old self.new }
    {
        let Some(list) = self.nest.close() else {
            return Err(RuleFault::Token(place));
        };
        if list.places.is_empty() {
            return Err(RuleFault::Token(place));
        }
        if !list.head.fits(list.places.len()) {
            return Err(RuleFault::Shape(place));
        }
        let item = self.terms.expand(list.head, &list.places);
        Ok(join(&mut self.nest, item))
    }

    // A number where an item is wanted.
    fn at_number(&mut self, place: usize, value: u16) -> Result<Wants, RuleFault>
        requires { (fs : List Frame) × ReaderAtItem self.old fs }
        ensures steps { (fs : List Frame) → ReaderAtItem self.old fs → ReaderSteps self.new result (at_item self.old.n place (Number value) fs) }
        ensures same { SameReader self.old self.new }
    {
        let member = in_range(value, self.n).ok_or(RuleFault::Range(place))?;
        if self.nest.is_crowded() {
            return Err(RuleFault::Shape(place));
        }
        let item = self.terms.put(TermKey::Member(member));
        Ok(join(&mut self.nest, item))
    }

    // A token where an item is wanted.
    fn at_item(&mut self, token: Token) -> Result<Wants, RuleFault>
        requires { (fs : List Frame) × ReaderAtItem self.old fs }
        ensures steps { (fs : List Frame) → ReaderAtItem self.old fs → ReaderSteps self.new result (at_item self.old.n token.place token.kind fs) }
        ensures same { SameReader self.old self.new }
    {
        let place = token.place;
        match token.kind {
            Kind::Number(value) => self.at_number(place, value),
            Kind::Word(word) => {
                if self.nest.is_crowded() {
                    return Err(RuleFault::Shape(place));
                }
                Ok(Wants::from(word))
            }
            Kind::Open => Err(RuleFault::Token(place)),
            Kind::Close => self.at_close(place),
        }
    }

    // What is wanted after one token more.
    fn next(&mut self, token: Token) -> Result<Wants, RuleFault>
        requires { (s : State) × ReaderFollows self.old s }
        ensures steps { (s : State) → ReaderFollows self.old s → ReaderSteps self.new result (step self.old.n s.stage s.frames token.place token.kind) }
        ensures same { SameReader self.old self.new }
    {
        match self.wants {
            Wants::Item => self.at_item(token),
            Wants::Figure(word) => at_figure(token, word),
            Wants::Bracket(head) => at_bracket(&mut self.nest, token, head),
            Wants::Nothing(_) => Err(RuleFault::Token(token.place)),
        }
    }

    // One token more.
    pub(crate) fn take(&mut self, token: Token) -> Result<(), RuleFault>
        requires { (s : State) × ReaderFollows self.old s }
        ensures steps { (s : State) → ReaderFollows self.old s → ReaderTook self.new result (step self.old.n s.stage s.frames token.place token.kind) }
        ensures same { SameReader self.old self.new }
    {
        self.wants = self.next(token)?;
        Ok(())
    }

    // The place of the whole rule at the end of a text of this length.
    pub(crate) fn finish(&self, len: usize) -> Result<u32, RuleFault>
        ensures { Finishes self.now.wants len result }
    {
        match self.wants {
            Wants::Nothing(place) => Ok(place),
            _ => Err(RuleFault::Token(len)),
        }
    }
}
