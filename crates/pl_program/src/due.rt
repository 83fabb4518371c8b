ghost use Rattle.std.specs.Prelude.{◌≡◌, ◌≢◌, ◌+◌, ◌≤◌, IfOk, length};
ghost use Rattle.pl_program.specs.Due as spec;

use crate::talk::{MOST_UNANSWERED, Talk, Turn};
use pl_host_word::{HostWord, MsgOut, Request, word_bytes};
use pl_program_file::{Known, Resource, Unfilled, filled_fields, known_at, names_of, registration};
use pl_state::Registration;
use pl_value::{Bytes, Fields, OutOfMemory, Text};
use std::alloc::Global;

/// The type of the stack's own resource.
const STACK_TYPE: &str = "pulumi:pulumi:Stack";

impl Talk {
    /// What is done next.
    #[tactic(auto, unfolding(crate::specs::Due::turn_of))]
    pub fn turn(&self, alloc: Global) -> Result<Turn, OutOfMemory>
        ensures turn { IfOk result (λ turn. turn ≡ spec.turn_of self.now) }
        ensures body { IfOk result spec.HasBody }
    {
        match self.word_due(alloc)? {
            None => Ok(Turn::Await),
            Some(word) => turn_with(alloc, &word),
        }
    }

    /// The word that is due, unless an answer is awaited before it.
    #[tactic(auto, unfolding(crate::specs::Due::word_due))]
    fn word_due(&self, alloc: Global) -> Result<Option<HostWord>, OutOfMemory>
        ensures { IfOk result (λ word. word ≡ spec.word_due self.now) }
    {
        match &self.error {
            None => self.next_word(alloc),
            Some(text) => {
                let text = text.copy()?;
                Ok(Some(HostWord::Error(text)))
            }
        }
    }

    #[tactic(auto, using(std::proofs::lemmas::Option::slice_get_within))]
    fn next_word(&self, alloc: Global) -> Result<Option<HostWord>, OutOfMemory>
        ensures { IfOk result (λ word. word ≡ spec.next_word self.now) }
    {
        if self.asked == 0 {
            let word = self.stack_word(alloc)?;
            return Ok(Some(word));
        }
        match self.program.resources.get(self.asked as usize - 1) {
            Some(resource) => self.resource_word(alloc, resource),
            None => self.end_word(alloc),
        }
    }

    fn stack_word(&self, alloc: Global) -> Result<HostWord, OutOfMemory>
        ensures { IfOk result (λ word. word ≡ spec.stack_word self.now) }
    {
        let kind = Text::from_str(alloc, STACK_TYPE)?;
        let name = self.title.copy()?;
        let told = Registration::component(alloc, kind, name, None);
        Ok(HostWord::Request(Request::Register { n: 1, told }))
    }

    /// The registration of a resource, once it may be sent.
    fn resource_word(
        &self,
        alloc: Global,
        resource: &Resource,
    ) -> Result<Option<HostWord>, OutOfMemory>
        requires { self.now.asked ≤ length self.now.program.resources }
        ensures { IfOk result (λ word. word ≡ spec.resource_word self.now resource.now self.now.stack) }
    {
        let Some(stack) = &self.stack else {
            return Ok(None);
        };
        if self.unanswered.len() >= MOST_UNANSWERED
            || !are_known(alloc, self.known.as_slice(), resource)?
        {
            return Ok(None);
        }
        let word = self.register_word(alloc, stack.as_str(), resource)?;
        Ok(Some(word))
    }

    fn register_word(
        &self,
        alloc: Global,
        stack: &str,
        resource: &Resource,
    ) -> Result<HostWord, OutOfMemory>
        requires { self.now.asked ≤ length self.now.program.resources }
        ensures { IfOk result (λ word. word ≡ spec.register_word self.now resource.now stack.now) }
    {
        let n = self.next_number();
        match registration(alloc, self.known.as_slice(), stack, self.preview, resource) {
            Ok(told) => Ok(HostWord::Request(Request::Register { n, told })),
            Err(why) => missing_word(alloc, why),
        }
    }

    /// What is said once each resource was sent: the outputs, and then the word of success, each once no answer is awaited.
    fn end_word(&self, alloc: Global) -> Result<Option<HostWord>, OutOfMemory>
        ensures { IfOk result (λ word. word ≡ spec.end_word self.now) }
    {
        if self.unanswered.len() != 0 {
            return Ok(None);
        }
        if self.asked as usize != self.program.resources.as_slice().len() + 1 {
            return Ok(Some(HostWord::Success));
        }
        match &self.program.outputs {
            None => Ok(Some(HostWord::Success)),
            Some(outputs) => self.outputs_word(alloc, outputs),
        }
    }

    fn outputs_word(&self, alloc: Global, outputs: &Fields) -> Result<Option<HostWord>, OutOfMemory>
        requires { self.now.asked ≤ length self.now.program.resources + 1 }
        ensures { IfOk result (λ word. word ≡ spec.outputs_word self.now outputs.now self.now.stack) }
    {
        let Some(stack) = &self.stack else {
            return Ok(None);
        };
        let word = self.told_word(alloc, stack.as_str(), outputs)?;
        Ok(Some(word))
    }

    fn told_word(
        &self,
        alloc: Global,
        stack: &str,
        outputs: &Fields,
    ) -> Result<HostWord, OutOfMemory>
        requires { self.now.asked ≤ length self.now.program.resources + 1 }
        ensures { IfOk result (λ word. word ≡ spec.told_word self.now outputs.now stack.now) }
    {
        let n = self.next_number();
        let urn = Text::from_str(alloc, stack)?;
        match filled_fields(alloc, self.known.as_slice(), self.preview, outputs) {
            Ok(outputs) => Ok(HostWord::Request(Request::Outputs { n, urn, outputs })),
            Err(why) => missing_word(alloc, why),
        }
    }

    /// The number of the next request.
    pub fn next_number(&self) -> u64
        requires { self.now.asked ≤ length self.now.program.resources + 1 }
        ensures { result ≡ self.now.asked + 1 }
    {
        let _count = self.program.resources.as_slice().len();
        self.asked + 1
    }
}

/// Whether each resource that this one uses is answered.
fn are_known(alloc: Global, known: &[Known], resource: &Resource) -> Result<bool, OutOfMemory>
    ensures { IfOk result (λ all. all ≡ spec.are_known known.now resource.now) }
{
    let names = names_of(alloc, resource)?;
    Ok(have_rows(known, names.as_slice()))
}

fn have_rows(known: &[Known], names: &[Text]) -> bool
    ensures { result ≡ spec.have_rows known.now names.now }
{
    for name in names {
        if known_at(known, name.as_str()).is_none() {
            return false;
        }
    }
    true
}

/// The word of error for what a value refers to and is not there.
fn missing_word(alloc: Global, why: Unfilled) -> Result<HostWord, OutOfMemory>
    ensures word { IfOk result (λ word. word ≡ spec.missing_word why) }
    ensures cause { IfOk result (λ _. why ≢ Unfilled.OutOfMemory) }
{
    match why {
        Unfilled::Missing { name, key } => {
            let text = missing_text(alloc, name.as_str(), key.as_str())?;
            Ok(HostWord::Error(text))
        }
        Unfilled::OutOfMemory => Err(OutOfMemory),
    }
}

fn missing_text(alloc: Global, name: &str, key: &str) -> Result<Text, OutOfMemory>
    ensures { IfOk result (λ text. text ≡ spec.missing_text name.now key.now) }
{
    let text = format!(in alloc; "no output {name}.{key}")?;
    Ok(Text::from_string(text))
}

/// The turn in which the word is sent, or the word of error where it would be too long.
fn turn_with(alloc: Global, word: &HostWord) -> Result<Turn, OutOfMemory>
    ensures turn { IfOk result (λ turn. turn ≡ spec.turn_with word.now) }
    ensures body { IfOk result spec.HasBody }
{
    match word_bytes(alloc, word) {
        Ok(body) => Ok(turn_by(word, body)),
        Err(MsgOut::TooLong(_)) => too_long(alloc),
        Err(MsgOut::OutOfMemory) => Err(OutOfMemory),
    }
}

fn turn_by(word: &HostWord, body: Bytes) -> Turn
    ensures { result ≡ spec.turn_by word.now body }
{
    match word {
        HostWord::Request(_) => Turn::Ask(body),
        HostWord::Success => Turn::Done(body),
        HostWord::Error(_) => Turn::Failed(body),
    }
}

/// The turn in which the host fails since a message would be too long.
fn too_long(alloc: Global) -> Result<Turn, OutOfMemory>
    ensures turn { IfOk result (λ turn. turn ≡ spec.said spec.too_long_word) }
    ensures body { IfOk result spec.HasBody }
{
    let word = HostWord::Error(Text::from_str(alloc, "too long")?);
    match word_bytes(alloc, &word) {
        Ok(body) => Ok(Turn::Failed(body)),
        Err(_) => Err(OutOfMemory),
    }
}
