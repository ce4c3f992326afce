//! What the lines of a script say.
ghost use Rattle.std.specs.Prelude.{◌≡◌};
ghost use Rattle.cmd_sync.specs.Gives.{Gives, left};
ghost use Rattle.cmd_sync.specs.ScriptReading.{read_catch_up, read_say, read_step, read_user, read_words};

use crate::fields::{
    address_in, is_account, is_password, is_resource, last_field, next_field, number_within,
    rest_field,
};
use crate::script::{Step, User};
use crate::script_fault::{LineFault, wants};
use crate::script_lines::{fields_after, spelled};
use base_io::Text;
use cmd_schedule::{LineWhy, cut_word, is_text};
use std::alloc::Global;

/// Who logs in.
#[tactic(auto, unfolding(crate::specs::ScriptReading::read_user))]
pub fn read_user(alloc: Global, line: &[u8], ended: bool) -> Result<User, LineFault>
    ensures { Gives (λ user. user) result (read_user (record { bytes = line.now; ended = ended })) }
{
    let (field, rest) = next_field(fields_after("account", line, ended)?)?;
    let (password, rest) = next_field(rest)?;
    let resource = last_field(rest)?;
    let address = address_in(alloc, field)?;
    wants(is_account(&address), LineWhy::Name)?;
    wants(is_password(password), LineWhy::Text)?;
    wants(is_resource(alloc, resource)?, LineWhy::Name)?;
    Ok(User {
        address,
        password: Text::from_str(alloc, password)?,
        resource: Text::from_str(alloc, resource)?,
    })
}

#[tactic(auto, unfolding(crate::specs::ScriptReading::read_say))]
fn read_say(alloc: Global, fields: Option<&str>) -> Result<Step, LineFault>
    ensures { Gives (λ step. step) result (read_say (left fields.entry)) }
{
    let (field, rest) = next_field(fields)?;
    let text = rest_field(rest)?;
    let to = address_in(alloc, field)?;
    wants(is_text(text), LineWhy::Text)?;
    Ok(Step::Say {
        to,
        text: Text::from_str(alloc, text)?,
    })
}

#[tactic(auto, unfolding(crate::specs::ScriptReading::read_catch_up))]
fn read_catch_up(fields: Option<&str>) -> Result<Step, LineFault>
    ensures { Gives (λ step. step) result (read_catch_up (left fields.entry)) }
{
    let field = last_field(fields)?;
    let max = number_within(1, 100, field)?;
    Ok(Step::CatchUp { max })
}

/// A step, by its first word.
#[tactic(auto, unfolding(crate::specs::ScriptReading::read_words))]
fn read_words(alloc: Global, word: &str, fields: Option<&str>) -> Result<Step, LineFault>
    ensures { Gives (λ step. step) result (read_words (record { front = word.now; rest = left fields.entry })) }
{
    match word {
        "say" => read_say(alloc, fields),
        "catchup" => read_catch_up(fields),
        _ => Err(LineFault::Reason(LineWhy::Word)),
    }
}

/// What a line behind the first two says.
#[tactic(auto, unfolding(crate::specs::ScriptReading::read_step))]
pub fn read_step(alloc: Global, line: &[u8], ended: bool) -> Result<Step, LineFault>
    ensures { Gives (λ step. step) result (read_step (record { bytes = line.now; ended = ended })) }
{
    let line = spelled(line, ended)?;
    let (word, fields) = cut_word(line);
    read_words(alloc, word, fields)
}
