// What a run does next.
ghost use Rattle.std.specs.Prelude.{ℕ, ◌≡◌, ◌≢◌, ◌+◌, ◌<◌, ◌≤◌, None, Some, IfOk, MatchOption, slice_get};
ghost use Rattle.std.specs.Option.{option_map};
ghost use Rattle.lw_base.specs.declared.numbers.PointId.{PointId};
ghost use Rattle.lw_first.specs.Heads.{seen_in};
ghost use Rattle.lw_look.specs.Looks.{window};
ghost use Rattle.lw_parse.specs.Running.{state_of, IsWayBy};
ghost use Rattle.lw_parse.specs.Deciding.{IsDecided, IsStepBy};

use crate::run::Run;
use crate::turn::{Places, Step, Turn};
use lw_base::{KindId, NoMemory, PointId, RuleId};
use lw_program::Instr;
use lw_program::recipes::TreeMark;

impl Run<'_> {
    /// What is done at this place, if anything can be.
    pub(crate) fn decide(&self, place: u32) -> Result<Option<Turn>, NoMemory>
        ensures { IfOk result (IsDecided (state_of self.now) place (slice_get (state_of self.now).parser.program.code place)) }
    {
        self.turn_by(place, self.parser.instr_at(place))
    }

    /// What is done where this stands at the place.
    fn turn_by(&self, place: u32, instr: Option<Instr>) -> Result<Option<Turn>, NoMemory>
        ensures { IfOk result (IsDecided (state_of self.now) place instr) }
    {
        match instr {
            None => Ok(None),
            Some(Instr::Token(kind)) => Ok(plainly(self.read(kind))),
            Some(Instr::End) => Ok(leaving(TreeMark::End)),
            Some(Instr::Shut) => Ok(leaving(TreeMark::Shut)),
            Some(Instr::Act(number)) => Ok(leaving(TreeMark::Act(number))),
            Some(Instr::Row { first, end }) => Ok(doing(Places::Row { first, end })),
            Some(Instr::Choice { point, first, end }) => Ok(self.choose(point, first, end)),
            Some(Instr::Maybe { point, body }) => Ok(self.choose_part(point, body)),
            Some(Instr::Loop { point, body }) => Ok(self.choose_again(place, point, body)),
            Some(Instr::Once { rest }) => Ok(self.once(rest)),
            Some(Instr::Put { put, first }) => self.begin_value(put, first),
            Some(Instr::Call { rule }) => self.go_into(rule),
        }
    }

    /// A token of this kind, if that is the next.
    fn read(&self, kind: KindId) -> Option<Step>
        ensures { IsStepBy (state_of self.now) (Some (Instr.Token kind)) result }
    {
        let next = self.unread.first()?;
        if *next != kind {
            return None;
        }
        Some(Step {
            mark: Some(TreeMark::Token(kind)),
            places: Places::Nowhere,
        })
    }

    /// A call of a rule: its body is to be done, and where it makes a node, that opens before and is shut behind it.
    pub(crate) fn call(&self, rule: u16) -> Result<Option<Step>, NoMemory>
        ensures { IfOk result (IsStepBy (state_of self.now) (Some (Instr.Call rule))) }
    {
        match self.parser.start_of(rule) {
            None => Ok(None),
            Some(start) => Ok(Some(self.begin_rule(rule, start)?)),
        }
    }

    /// A call of a rule whose body is at this place.
    fn begin_rule(&self, rule: u16, start: u32) -> Result<Step, NoMemory>
        requires { slice_get (state_of self.now).parser.program.starts rule ≡ Some (Some start) }
        ensures { IfOk result (λ step. IsStepBy (state_of self.now) (Some (Instr.Call rule)) (Some step)) }
    {
        if !self.parser.makes_node(rule) {
            return Ok(Step {
                mark: None,
                places: Places::One(start),
            });
        }
        let end = behind(start)?;
        Ok(Step {
            mark: Some(TreeMark::Open(RuleId(rule))),
            places: Places::Two(start, end),
        })
    }

    fn go_into(&self, rule: u16) -> Result<Option<Turn>, NoMemory>
        ensures { (p : ℕ) → IfOk result (IsDecided (state_of self.now) p (Some (Instr.Call rule))) }
    {
        let step = self.call(rule)?;
        Ok(plainly(step))
    }

    /// What reads the text of a value.
    fn enter(&self, instr: Option<Instr>) -> Result<Option<Step>, NoMemory>
        ensures { IfOk result (IsStepBy (state_of self.now) instr) }
    {
        match instr {
            Some(Instr::Token(kind)) => Ok(self.read(kind)),
            Some(Instr::Call { rule }) => self.call(rule),
            _ => Ok(None),
        }
    }

    /// The value of this number, whose text is read at the first place and which ends behind it.
    fn begin_value(&self, number: u32, first: u32) -> Result<Option<Turn>, NoMemory>
        ensures { (p : ℕ) → IfOk result (IsDecided (state_of self.now) p (Some (Instr.Put number first))) }
    {
        let end = behind(first)?;
        let step = self.enter(self.parser.instr_at(first))?;
        Ok(in_value(number, end, step))
    }

    /// The kind that stands so many places behind the next, or the end.
    fn kind_at(&self, place: usize) -> Option<KindId>
        ensures { option_map (λ kind. kind.0) result ≡ slice_get (state_of self.now).unread place }
    {
        self.unread.get(place).copied()
    }

    /// The next three kinds, as a parser sees them that looks at three.
    #[tactic(auto, using(crate::proofs::Windows::three_places))]
    fn next_three(&self) -> [Option<KindId>; 3]
        ensures { seen_in result ≡ window 3 (state_of self.now).unread }
    {
        [self.kind_at(0), self.kind_at(1), self.kind_at(2)]
    }

    /// The way that the next kinds come next at.
    fn way(&self, point: PointId) -> Option<u16>
        ensures { IsWayBy (state_of self.now).parser (state_of self.now).unread point result }
    {
        let seen = self.next_three();
        self.parser.way(point, &seen[..self.parser.depth()])
    }

    /// One of the ways from the first place up to the end.
    fn choose(&self, point: PointId, first: u32, end: u32) -> Option<Turn>
        ensures { (p : ℕ) → IsDecided (state_of self.now) p (Some (Instr.Choice point first end)) result }
    {
        match place_of_way(first, end, self.way(point)) {
            None => None,
            Some(place) => doing(Places::One(place)),
        }
    }

    /// The part at this place, or nothing.
    fn choose_part(&self, point: PointId, body: u32) -> Option<Turn>
        ensures { (p : ℕ) → IsDecided (state_of self.now) p (Some (Instr.Maybe point body)) result }
    {
        match self.way(point) {
            Some(1) => doing(Places::One(body)),
            Some(2) => doing(Places::Nowhere),
            _ => None,
        }
    }

    /// The body of the loop at this place once more and then the loop again, or nothing.
    fn choose_again(&self, place: u32, point: PointId, body: u32) -> Option<Turn>
        ensures { IsDecided (state_of self.now) place (Some (Instr.Loop point body)) result }
    {
        match self.way(point) {
            Some(1) => doing(Places::Two(body, place)),
            Some(2) => doing(Places::Nowhere),
            _ => None,
        }
    }

    /// The body of the loop at this place, and then the loop.
    fn once(&self, rest: u32) -> Option<Turn>
        ensures { (p : ℕ) → IsDecided (state_of self.now) p (Some (Instr.Once rest)) result }
    {
        match body_of(self.parser.instr_at(rest)) {
            None => None,
            Some(body) => doing(Places::Two(body, rest)),
        }
    }
}

/// A step by itself.
fn plainly(step: Option<Step>) -> Option<Turn>
    ensures { result ≡ option_map Turn.Plain step }
{
    match step {
        None => None,
        Some(step) => Some(Turn::Plain(step)),
    }
}

/// A step that reads the text of a value.
fn in_value(number: u32, end: u32, step: Option<Step>) -> Option<Turn>
    ensures { result ≡ option_map (Turn.Value number end) step }
{
    match step {
        None => None,
        Some(step) => Some(Turn::Value { number, end, step }),
    }
}

/// A mark is left, and nothing is then to be done.
fn leaving(mark: TreeMark) -> Option<Turn>
    ensures { result ≡ Some (Turn.Plain (record { mark = Some mark; places = Places.Nowhere })) }
{
    Some(Turn::Plain(Step {
        mark: Some(mark),
        places: Places::Nowhere,
    }))
}

/// No mark is left, and these places are to be done.
fn doing(places: Places) -> Option<Turn>
    ensures { result ≡ Some (Turn.Plain (record { mark = None; places = places })) }
{
    Some(Turn::Plain(Step { mark: None, places }))
}

/// The place of the body where a loop stands.
fn body_of(instr: Option<Instr>) -> Option<u32>
    ensures { MatchOption result ((point : PointId) (body : ℕ) → instr ≢ Some (Instr.Loop point body))
        (λ body. (point : PointId) × (instr ≡ Some (Instr.Loop point body))) }
{
    match instr? {
        Instr::Loop { body, .. } => Some(body),
        _ => None,
    }
}

/// The place of a way, which is counted from one, among those from the first up to the end.
fn place_of_way(first: u32, end: u32, way: Option<u16>) -> Option<u32>
    ensures { MatchOption result ((i : ℕ) → way ≡ Some (i + 1) → end ≤ first + i)
        (λ place. (i : ℕ) × (way ≡ Some (i + 1)) × (place ≡ first + i) × (place < end)) }
{
    let before = way?.checked_sub(1)?;
    let place = first.checked_add(u32::from(before))?;
    if place < end { Some(place) } else { None }
}

/// The place behind another. Where it has no number, memory is wanting.
fn behind(place: u32) -> Result<u32, NoMemory>
    ensures { IfOk result (λ next. next ≡ place + 1) }
{
    place.checked_add(1).ok_or(NoMemory)
}
