ghost use Rattle.std.specs.Prelude.{◌≡◌, IfOk};
ghost use Rattle.pl_registry.specs.Lanes as spec;

use pl_reference::ProviderWords;
use pl_value::{OutOfMemory, Text, Words};
use std::alloc::Global;

/// The words that start the provider of a package.
pub fn words_for(
    alloc: Global,
    commands: &ProviderWords,
    provided: &str,
) -> Result<Words, OutOfMemory>
    ensures { IfOk result (λ words. words ≡ spec.lane_words commands.now provided.now) }
{
    match commands.words_of(provided) {
        Some(words) => words.copy(),
        None => usual_words(alloc, provided),
    }
}

fn usual_words(alloc: Global, provided: &str) -> Result<Words, OutOfMemory>
    ensures { IfOk result (λ words. words ≡ spec.usual_words provided.now) }
{
    let mut words = Words::new(alloc);
    let word = format!(in alloc; "pulumi-resource-{provided}")?;
    words.push(Text::from_string(word))?;
    Ok(words)
}
