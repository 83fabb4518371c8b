ghost use Rattle.std.specs.Prelude.{◌≡◌, ◌≤◌, ◌+◌, IfOk, OnOk, length};
ghost use Rattle.pl_program.specs.Heard as spec;

use crate::talk::Talk;
use pl_host_word::{Answer, MsgIn, answer_of};
use pl_program_file::Known;
use pl_urn::Urn;
use pl_value::{Fields, OutOfMemory, Rows, Text};
use std::alloc::Global;

impl Talk {
    /// Counts a request that was sent.
    pub fn count(&mut self) -> Result<(), OutOfMemory>
        requires { self.old.asked ≤ length self.old.program.resources + 1 }
        ensures { OnOk result (self.new ≡ spec.asked self.old) }
    {
        let n = self.next_number();
        self.unanswered.push(n)?;
        self.asked = n;
        Ok(())
    }

    /// Takes up the answer that the body of a frame spells, and says whether it may stand there.
    #[tactic(auto, unfolding(crate::specs::Heard::heard))]
    pub fn hear(&mut self, alloc: Global, body: &[u8]) -> Result<bool, OutOfMemory>
        ensures { IfOk result (λ stands. spec.IsHeard stands (spec.heard body.now self.old) self.new) }
    {
        match answer_of(alloc, body) {
            Ok((n, answer)) => self.hear_answer(alloc, n, answer),
            Err(MsgIn::NotAMessage) => Ok(false),
            Err(MsgIn::OutOfMemory) => Err(OutOfMemory),
        }
    }

    fn hear_answer(&mut self, alloc: Global, n: u64, answer: Answer) -> Result<bool, OutOfMemory>
        ensures { IfOk result (λ stands. spec.IsHeard stands (spec.heard_answer n answer self.old) self.new) }
    {
        if !self.unanswered.as_slice().contains(&n) {
            return Ok(false);
        }
        self.unanswered = without(alloc, self.unanswered.as_slice(), n)?;
        self.take_up(n, answer)
    }

    fn take_up(&mut self, n: u64, answer: Answer) -> Result<bool, OutOfMemory>
        ensures { IfOk result (λ stands. spec.IsHeard stands (spec.taken_up n answer self.old) self.new) }
    {
        match answer {
            Answer::Registered { urn, id, outputs } => self.take_resource(n, urn, id, outputs),
            Answer::Noted => Ok(n as usize > self.program.resources.as_slice().len() + 1),
            Answer::Result(_) => Ok(false),
            Answer::Refused(text) => {
                self.error = Some(text);
                Ok(true)
            }
        }
    }

    /// Takes up that the resource of this request is registered.
    fn take_resource(
        &mut self,
        n: u64,
        urn: Urn,
        id: Option<Text>,
        outputs: Fields,
    ) -> Result<bool, OutOfMemory>
        ensures { IfOk result (λ stands. spec.IsHeard stands (spec.with_resource n urn id outputs self.old) self.new) }
    {
        if n == 1 {
            self.stack = Some(urn);
            return Ok(true);
        }
        let Some(resource) = self.program.resources.get((n as usize).saturating_sub(2)) else {
            return Ok(false);
        };
        let name = resource.name.copy()?;
        self.known.push(Known {
            name,
            urn,
            id,
            outputs,
        })?;
        Ok(true)
    }
}

/// The numbers but for this one.
fn without(alloc: Global, numbers: &[u64], n: u64) -> Result<Rows, OutOfMemory>
    ensures { IfOk result (λ others. others ≡ spec.without n numbers.now) }
{
    let mut others = Rows::new(alloc);
    for number in numbers {
        if *number != n {
            others.push(*number)?;
        }
    }
    Ok(others)
}
