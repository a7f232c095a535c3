//! From the bytes of a script to its steps.

ghost use Rattle.std.specs.Prelude.{◌≡◌, ◌≤◌, length, map, IfOk, IfErr};
ghost use Rattle.std.specs.List.{AllZip};
ghost use Rattle.serde_json.specs.View.{view};
ghost use Rattle.jr_script.specs.Steps.{Means};
ghost use Rattle.jr_script.specs.Scripts.{IsScript, HasValue, script_limit, step_limit};
ghost use Rattle.jr_script.specs.ScriptFaults.{IsScriptFault, IsValueFault, IsElementFault};

use crate::faults::{ScriptFault, StepFault};
use crate::rows::read_step;
use jr_names::Step;
use serde_json::Value;
use std::alloc::Global;

/// How many bytes a script has at most.
pub const MAX_SCRIPT_LEN: u32 = 1_048_576;

/// How many steps a script has at most.
pub const MAX_STEPS: u32 = 1_000;

/// The steps that the bytes of a script ask for: a JSON array of objects, each with exactly the
/// members of its row. Offsets are bytes from the start of a file.
///
/// The first fault is told, in the order in which [`ScriptFault`] has them.
pub fn read_script(alloc: Global, bytes: &[u8]) -> Result<Vec<Step>, ScriptFault>
    ensures ok { IfOk result (λ steps. IsScript bytes.now steps.items) }
    ensures fault { IfErr result (IsScriptFault bytes.now) }
{
    if bytes.len() > MAX_SCRIPT_LEN as usize {
        return Err(ScriptFault::TooLong);
    }
    let value = read_value(alloc, bytes)?;
    let Some(elements) = value.as_array() else {
        return Err(ScriptFault::NotAList);
    };
    if elements.len() > MAX_STEPS as usize {
        return Err(ScriptFault::TooMany {
            count: elements.len() as u32,
        });
    }
    read_steps(alloc, elements.as_slice())
}

// The value that the bytes are.
fn read_value(alloc: Global, bytes: &[u8]) -> Result<Value, ScriptFault>
    ensures ok { IfOk result (λ value. HasValue bytes.now (view value)) }
    ensures fault { IfErr result (IsValueFault bytes.now) }
{
    match Value::from_slice(alloc, bytes) {
        Ok(value) => Ok(value),
        Err(error) if error.is_memory() => Err(ScriptFault::Memory),
        Err(_) => Err(ScriptFault::NotJson),
    }
}

// The steps that the elements are.
fn read_steps(alloc: Global, elements: &[Value]) -> Result<Vec<Step>, ScriptFault>
    requires { length elements.now ≤ step_limit }
    ensures ok { IfOk result (λ steps. AllZip Means (map view elements.now) steps.items) }
    ensures fault { IfErr result (IsElementFault (map view elements.now)) }
{
    let mut steps = Vec::with_capacity(alloc, elements.len())?;
    for element in elements {
        match read_step(alloc, element) {
            Ok(step) => steps.push(step)?,
            Err(StepFault::Member(member)) => {
                return Err(ScriptFault::NotAScript {
                    step: steps.len() as u32,
                    member,
                });
            }
            Err(StepFault::Memory) => return Err(ScriptFault::Memory),
        }
    }
    Ok(steps)
}
