// Reads the events of a part.
ghost use Rattle.std.specs.Prelude.{◌≡◌, true, nat_lt};
ghost use Rattle.lexis.specs.Readers.{step_of};
ghost use Rattle.parts.specs.Readings.{drafted, turned, here, Keeps};
ghost use Rattle.forms.specs.Drafts.{so_far};
ghost use Rattle.forms.specs.Reading.{message_at, action_at, partner_at, message_event_at, action_event_at, event_turn};
ghost use Rattle.parts.specs.Turns.{made, fits, message_in, action_in, events_in};

use crate::names::old_name;
use crate::reading::Reading;
use draft::draft::Draft;
use lexis::refusal::Refusal;
use lexis::token::Token;
use msc::event::Event;
use msc::symbol::Symbol;
use msc::words::Keyword;
use std::ops::ControlFlow;

// At most 64 events, and what ends them.
const TURNS: usize = 65;

// Which way a message goes.
#[derive(Clone, Copy)]
enum Way {
    Out,
    In,
}

impl Way {
    // The event of a message name and a partner.
    fn event(self, name: u8, partner: u8) -> Event
        ensures { result ≡ made self name partner }
    {
        match self {
            Way::Out => Event::Out { name, to: partner },
            Way::In => Event::In {
                name,
                from: partner,
            },
        }
    }

    // Whether the draft has room for it.
    fn fits(self, draft: &Draft) -> bool
        ensures { result ≡ fits self draft.now }
    {
        match self {
            Way::Out => draft.has_room_out(),
            Way::In => draft.has_room(),
        }
    }
}

impl<'a, 'w> Reading<'a, 'w> {
    // The number of a message name, which is new or stood before.
    fn message(&mut self) -> Result<u8, Refusal>
        ensures says { drafted result self.new ≡ here message_at self.old }
        ensures events { so_far self.new.draft ≡ so_far self.old.draft }
        ensures keeps { Keeps self.old self.new }
    {
        let name = self.reader.name()?;
        let place = self.reader.place();
        self.draft.message(name).ok_or(Refusal::Limit(place))
    }

    // The same of an action name; two calls apart, which a parameter for the kind would not make shorter.
    fn action(&mut self) -> Result<u8, Refusal>
        ensures says { drafted result self.new ≡ here action_at self.old }
        ensures events { so_far self.new.draft ≡ so_far self.old.draft }
        ensures keeps { Keeps self.old self.new }
    {
        let name = self.reader.name()?;
        let place = self.reader.place();
        self.draft.action(name).ok_or(Refusal::Limit(place))
    }

    // The partner of an event of instance `own`.
    fn partner(&mut self, own: usize) -> Result<u8, Refusal>
        ensures says { step_of (λ k. k) result self.new.reader ≡ here (λ ws d. partner_at ws d own) self.old }
        ensures words { self.new.reader.words ≡ self.old.reader.words }
        ensures text { self.new.reader.text ≡ self.old.reader.text }
        ensures draft { self.new.draft ≡ self.old.draft }
    {
        let k = old_name(&mut self.reader, self.draft.instances())?;
        if k == own {
            return Err(Refusal::Itself(self.reader.place()));
        }
        Ok(k as u8)
    }

    // name to name ; or name from name ; where the draft has room for an event: its caller has tried that.
    fn message_event(&mut self, way: Way, link: Keyword, own: usize) -> Result<(), Refusal>
        requires { nat_lt (so_far self.old.draft) 1024 ≡ true }
        ensures says { step_of (λ _. self.new.draft) result self.new.reader ≡ here (λ ws. message_event_at ws link (made way) own) self.old }
        ensures keeps { Keeps self.old self.new }
    {
        let name = self.message()?;
        self.reader.keyword(link)?;
        let partner = self.partner(own)?;
        self.reader.sign(Symbol::Semi)?;
        self.draft.push_event(way.event(name, partner));
        Ok(())
    }

    // name ; likewise.
    fn action_event(&mut self) -> Result<(), Refusal>
        requires { nat_lt (so_far self.old.draft) 1024 ≡ true }
        ensures says { step_of (λ _. self.new.draft) result self.new.reader ≡ here action_event_at self.old }
        ensures keeps { Keeps self.old self.new }
    {
        let name = self.action()?;
        self.reader.sign(Symbol::Semi)?;
        self.draft.push_event(Event::Action { name });
        Ok(())
    }

    // A message, behind the word for its way at a place, where there is room for it.
    fn message_turn(
        &mut self,
        way: Way,
        link: Keyword,
        own: usize,
        place: usize,
    ) -> Result<ControlFlow<()>, Refusal>
        ensures says { turned result self.new ≡ here (λ ws. message_in ws way link own place) self.old }
        ensures keeps { Keeps self.old self.new }
    {
        if !way.fits(&self.draft) {
            return Err(Refusal::Limit(place));
        }
        self.message_event(way, link, own)?;
        Ok(ControlFlow::Continue(()))
    }

    // An action, likewise.
    fn action_turn(&mut self, place: usize) -> Result<ControlFlow<()>, Refusal>
        ensures says { turned result self.new ≡ here (λ ws. action_in ws place) self.old }
        ensures keeps { Keeps self.old self.new }
    {
        if !self.draft.has_room() {
            return Err(Refusal::Limit(place));
        }
        self.action_event()?;
        Ok(ControlFlow::Continue(()))
    }

    // An event of instance `own`, or the word endinstance, which is the last.
    fn event_turn(&mut self, own: usize) -> Result<ControlFlow<()>, Refusal>
        ensures says { turned result self.new ≡ here (λ ws. event_turn ws own) self.old }
        ensures keeps { Keeps self.old self.new }
    {
        let token = self.reader.next()?;
        let place = self.reader.place();
        match token {
            Token::Word(Keyword::Out) => self.message_turn(Way::Out, Keyword::To, own, place),
            Token::Word(Keyword::In) => self.message_turn(Way::In, Keyword::From, own, place),
            Token::Word(Keyword::Action) => self.action_turn(place),
            Token::Word(Keyword::Endinstance) => Ok(ControlFlow::Break(())),
            _ => Err(Refusal::Unexpected(place)),
        }
    }

    // The events of instance `own`, and the word endinstance.
    pub fn events(&mut self, own: usize) -> Result<(), Refusal>
        ensures says { step_of (λ _. self.new.draft) result self.new.reader ≡ here (λ ws. events_in ws own) self.old }
        ensures keeps { Keeps self.old self.new }
    {
        // written out: a function over a closure for each turn leaves its caller the last turn, the limit and a
        // refusal to tell apart, which takes as many lines and more to prove
        for _ in 0..TURNS {
            if self.event_turn(own)?.is_break() {
                return Ok(());
            }
        }
        Err(Refusal::Limit(self.reader.at()))
    }
}
