//! The first reference that is lost.
ghost use Rattle.std.specs.Prelude.{◌≡◌, ◌<◌, [], Some, IfSome, IfNone, option_map, slice_get};
ghost use Rattle.std.specs.Prelude.{length};
ghost use Rattle.jr_new_words.specs.ChoiceView.{lost_of};
ghost use Rattle.jr_new_bodies.specs.OutputView.{losses_in};
ghost use Rattle.jr_new_files.specs.FileEffects.{effects_of};
ghost use Rattle.jr_new_files.specs.Lost.{HasLeast, HasLeastThere};
ghost use Rattle.jr_new_files.specs.Lost.{LosesNothingThere, HasFirstLost, IsFirstLoss};
ghost use Rattle.jr_new_files.specs.Lost.{LoseNothing};

use jr_new_bodies::Output;
use jr_new_words::Lost;

/// Where a reference begins.
fn place_of(losses: &[Lost], number: usize) -> u32
    requires { number < length losses.now }
    ensures { option_map (λ l. l.at) (slice_get losses.now number) ≡ Some result }
{
    losses[number].at
}

/// The number of the first that begins where none begins before.
pub fn least_loss(losses: &[Lost]) -> Option<usize>
    ensures some { IfSome result (HasLeast (losses_in losses.now)) }
    ensures none { IfNone result (losses.now ≡ []) }
{
    if losses.is_empty() {
        return None;
    }
    let mut best = 0;
    for number in 1..losses.len() {
        if place_of(losses, number) < place_of(losses, best) {
            best = number;
        }
    }
    Some(best)
}

/// The number of the first loss of a file.
fn least_of(outputs: &[Output], file: u32) -> Option<usize>
    requires { file < length outputs.now }
    ensures some { IfSome result (λ n. HasLeastThere (effects_of outputs.now) file n) }
    ensures none { IfNone result (LosesNothingThere (effects_of outputs.now) file) }
{
    least_loss(outputs[file as usize].losses.as_slice())
}

/// The first of so many files that loses something, with the number of its first loss.
fn first_place(outputs: &[Output], count: u32) -> Option<(u32, usize)>
    requires { length outputs.now ≡ count }
    ensures some { IfSome result (λ p. HasFirstLost (effects_of outputs.now) p.0 p.1) }
    ensures none { IfNone result (LoseNothing (effects_of outputs.now)) }
{
    for file in 0..count {
        if let Some(number) = least_of(outputs, file) {
            return Some((file, number));
        }
    }
    None
}

/// The loss that has these numbers.
fn loss_at(outputs: Vec<Output>, file: u32, number: usize) -> Lost
    requires { HasFirstLost (effects_of outputs.items) file number }
    ensures { IsFirstLoss (effects_of outputs.items) file (lost_of result) }
{
    let mut outputs = outputs;
    let mut losses = outputs.swap_remove(file as usize).losses;
    losses.swap_remove(number)
}

/// The first that is lost, with its file.
pub(crate) fn first_lost(outputs: Vec<Output>, count: u32) -> Option<(u32, Lost)>
    requires { length outputs.items ≡ count }
    ensures some { IfSome result
        (λ p. IsFirstLoss (effects_of outputs.items) p.0 (lost_of p.1)) }
    ensures none { IfNone result (LoseNothing (effects_of outputs.items)) }
{
    match first_place(outputs.as_slice(), count) {
        None => None,
        Some((file, number)) => Some((file, loss_at(outputs, file, number))),
    }
}
