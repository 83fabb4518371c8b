ghost use Rattle.std.specs.Prelude.{◌≡◌, ◌≤◌, ◌<◌, ◌^◌, ◌++◌, IfOk, OnOk};
ghost use Rattle.pl_host_word.specs.Spelled.{word_text};
ghost use Rattle.pl_world.specs.Frames.{IsBody, frame_of};
ghost use Rattle.pl_program.specs.Generated as spec;

use pl_host_word::{HostWord, Request, word_bytes};
use pl_state::Registration;
use pl_value::{Bytes, Fields, OutOfMemory, Text, Texts, Value};
use std::alloc::Global;

/// The most things that are generated.
pub const MOST_THINGS: u64 = 1000;

const MULTIPLIER: u128 = 6_364_136_223_846_793_005;

const INCREMENT: u128 = 1_442_695_040_888_963_407;

const STACK_URN: &str = "urn:pulumi:trial::trial::pulumi:pulumi:Stack::trial-trial";

/// The bytes of a host that waits for no answer, in a stack and a project named `trial`: it registers the stack and so many
/// things, which depend on each other by what is drawn from the seed, and is done.
pub fn generate(alloc: Global, seed: u64, count: u64) -> Result<Bytes, OutOfMemory>
    requires some { 1 ≤ count }
    requires within { count ≤ MOST_THINGS }
    ensures { IfOk result (λ bytes. bytes ≡ spec.generated seed count) }
{
    let mut frames = things(alloc, seed, count)?;
    add_frame(alloc, &HostWord::Success, &mut frames)?;
    Ok(frames)
}

/// The frames of the stack and of so many things.
#[tactic(auto, unfolding(crate::specs::Generated::frames_until, crate::specs::Generated::draw_at))]
fn things(alloc: Global, seed: u64, count: u64) -> Result<Bytes, OutOfMemory>
    requires { count ≤ MOST_THINGS }
    ensures { IfOk result (λ frames. frames ≡ spec.frames_until seed count) }
{
    let mut frames = first_frame(alloc)?;
    let mut draw = seed;
    for place in 0..count {
        add_thing(alloc, draw, place, &mut frames)?;
        draw = next_draw(draw);
    }
    Ok(frames)
}

/// The frame of the stack.
fn first_frame(alloc: Global) -> Result<Bytes, OutOfMemory>
    ensures { IfOk result (λ frames. frames ≡ spec.first_frame) }
{
    let mut frames = Bytes::from_vec(Vec::new(alloc));
    let word = stack_first(alloc)?;
    add_frame(alloc, &word, &mut frames)?;
    Ok(frames)
}

fn stack_first(alloc: Global) -> Result<HostWord, OutOfMemory>
    ensures { IfOk result (λ word. word ≡ spec.stack_first) }
{
    let kind = Text::from_str(alloc, "pulumi:pulumi:Stack")?;
    let name = Text::from_str(alloc, "trial-trial")?;
    let told = Registration::component(alloc, kind, name, None);
    Ok(HostWord::Request(Request::Register { n: 1, told }))
}

/// The draw behind one.
fn next_draw(draw: u64) -> u64
    ensures { result ≡ spec.next_draw draw }
{
    ((u128::from(draw) * MULTIPLIER + INCREMENT) % (1 << 64)) as u64
}

/// Adds the frame of the thing at this place.
fn add_thing(alloc: Global, draw: u64, place: u64, frames: &mut Bytes) -> Result<(), OutOfMemory>
    requires { place < MOST_THINGS }
    ensures { OnOk result (frames.new ≡ frames.old ++ frame_of (word_text (spec.thing_word draw place))) }
{
    let told = thing_at(alloc, draw, place)?;
    let word = HostWord::Request(Request::Register { n: place + 2, told });
    add_frame(alloc, &word, frames)
}

fn thing_at(alloc: Global, draw: u64, place: u64) -> Result<Registration, OutOfMemory>
    requires { place < MOST_THINGS }
    ensures { IfOk result (λ told. told ≡ spec.thing_at draw place) }
{
    let kind = Text::from_str(alloc, "toy:index:Thing")?;
    let name = thing_name(alloc, place)?;
    let parent = Text::from_str(alloc, STACK_URN)?;
    let inputs = inputs_at(alloc, place)?;
    let dependencies = dependencies_at(alloc, draw, place)?;
    Ok(Registration {
        custom: true,
        inputs,
        dependencies,
        ..Registration::component(alloc, kind, name, Some(parent))
    })
}

fn thing_name(alloc: Global, place: u64) -> Result<Text, OutOfMemory>
    ensures { IfOk result (λ name. name ≡ spec.thing_name place) }
{
    let name = format!(in alloc; "r{place}")?;
    Ok(Text::from_string(name))
}

fn inputs_at(alloc: Global, place: u64) -> Result<Fields, OutOfMemory>
    requires { place < MOST_THINGS }
    ensures { IfOk result (λ inputs. inputs ≡ spec.inputs_at place) }
{
    let mut inputs = Fields::new(alloc);
    inputs.push(Text::from_str(alloc, "k")?, Value::Whole(place as i64))?;
    Ok(inputs)
}

/// What the thing depends on: the first on nothing, another on one of the earlier things.
fn dependencies_at(alloc: Global, draw: u64, place: u64) -> Result<Texts, OutOfMemory>
    ensures { IfOk result (λ urns. urns ≡ spec.dependencies_at draw place) }
{
    let mut urns = Texts::new(alloc);
    if place > 0 {
        let earlier = (draw >> 33) % place;
        urns.push(thing_urn(alloc, earlier)?)?;
    }
    Ok(urns)
}

fn thing_urn(alloc: Global, place: u64) -> Result<Text, OutOfMemory>
    ensures { IfOk result (λ urn. urn ≡ spec.thing_urn place) }
{
    let urn = format!(in alloc; "urn:pulumi:trial::trial::toy:index:Thing::r{place}")?;
    Ok(Text::from_string(urn))
}

/// Adds the frame of a word.
fn add_frame(alloc: Global, word: &HostWord, frames: &mut Bytes) -> Result<(), OutOfMemory>
    ensures { OnOk result (frames.new ≡ frames.old ++ frame_of (word_text word.now)) }
{
    match word_bytes(alloc, word) {
        Ok(body) => add_body(body.as_slice(), frames),
        Err(_) => Err(OutOfMemory),
    }
}

fn add_body(body: &[u8], frames: &mut Bytes) -> Result<(), OutOfMemory>
    requires { IsBody body.now }
    ensures { OnOk result (frames.new ≡ frames.old ++ frame_of body.now) }
{
    let header = (body.len() as u32).to_be_bytes();
    frames.extend(&header)?;
    frames.extend(body)
}
