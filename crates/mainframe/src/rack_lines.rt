//! The lines that boards and meters of a rack obey.

ghost use Rattle.std.specs.Prelude.{◌≡◌, ◌≤◌, ◌++◌, map, string_bytes, IfOk};
ghost use Rattle.sw_base.specs.Limits.{most_channels};
ghost use Rattle.sw_rack.specs.Templates.{rendered};
ghost use Rattle.mainframe.specs.RackBoards.{AreCommandsOf, command_seen, commands_for, each_line, each_query, ended_lines};
ghost use Rattle.mainframe.specs.RackBoards.{given};

use std::alloc::{AllocError, Global};
use sw_drivers::{Command, Commands};
use sw_rack::{Lines, State, rendered};

/// The commands of a board with `channels` channels. Each line that is sent ends by `end`, and each answer to a query
/// of a channel's state by `ending`.
pub fn commands_of(
    alloc: Global,
    words: &Lines,
    channels: u8,
    end: &[u8],
    ending: &[u8],
) -> Result<Commands, AllocError>
    requires { channels ≤ most_channels }
    ensures { IfOk result (AreCommandsOf channels words.now end.now ending.now) }
{
    let answer_end = words.answer_end.as_str().as_bytes();
    let answer = words.answer.as_str().as_bytes();
    Ok(Commands {
        setup: ended(alloc, words.setup.as_slice(), end)?,
        on: for_each(alloc, words.on.as_str(), channels, end, answer_end, answer)?,
        off: for_each(alloc, words.off.as_str(), channels, end, answer_end, answer)?,
        clear: as_they_are(alloc, words.all_off.as_slice(), end, answer_end, answer)?,
        is_on: asking(alloc, &words.state, true, channels, end, ending)?,
        is_off: asking(alloc, &words.state, false, channels, end, ending)?,
    })
}

/// What asks for the state of each channel, and wants it on or off. Nothing where the board reports no state.
fn asking(
    alloc: Global,
    state: &Option<State>,
    on: bool,
    channels: u8,
    end: &[u8],
    ending: &[u8],
) -> Result<Vec<Command>, AllocError>
    requires { channels ≤ most_channels }
    ensures { IfOk result (λ commands. map command_seen commands.items
        ≡ each_query channels state.now on end.now ending.now) }
{
    let Some(state) = state else {
        return Ok(Vec::new(alloc));
    };
    let word = if on {
        state.on.as_str()
    } else {
        state.off.as_str()
    };
    for_each(
        alloc,
        state.query.as_str(),
        channels,
        end,
        ending,
        word.as_bytes(),
    )
}

/// A command for each channel, by a template.
fn for_each(
    alloc: Global,
    template: &str,
    channels: u8,
    end: &[u8],
    ending: &[u8],
    word: &[u8],
) -> Result<Vec<Command>, AllocError>
    requires { channels ≤ most_channels }
    ensures { IfOk result (λ commands. map command_seen commands.items
        ≡ each_line channels template.now end.now ending.now word.now) }
{
    let mut commands = Vec::new(alloc);
    for before in 0..channels {
        let mut sent = line_for(alloc, template, before + 1)?;
        sent.extend_from_slice(end)?;
        commands.push(command(alloc, sent, ending, word)?)?;
    }
    Ok(commands)
}

/// A command for each of these lines, as they are.
fn as_they_are(
    alloc: Global,
    lines: &[String],
    end: &[u8],
    ending: &[u8],
    word: &[u8],
) -> Result<Vec<Command>, AllocError>
    ensures { IfOk result (λ commands. map command_seen commands.items
        ≡ commands_for lines.now end.now ending.now word.now) }
{
    let mut commands = Vec::new(alloc);
    for line in lines {
        let sent = with_end(alloc, line.as_str(), end)?;
        commands.push(command(alloc, sent, ending, word)?)?;
    }
    Ok(commands)
}

/// What a template gives for a channel. The file was read with it, so it gives something; else it is sent as it is.
fn line_for(alloc: Global, template: &str, ch: u8) -> Result<Vec<u8>, AllocError>
    requires { ch ≤ most_channels }
    ensures { IfOk result (λ line. line.items ≡ given template.now (rendered ch template.now)) }
{
    match rendered(alloc, template, ch)? {
        Some(sent) => Ok(sent),
        None => template.as_bytes().to_vec(alloc),
    }
}

/// A command that sends this. Its answer ends so, and has this word.
fn command(alloc: Global, sent: Vec<u8>, ending: &[u8], word: &[u8]) -> Result<Command, AllocError>
    ensures { IfOk result (λ c. command_seen c ≡ (sent.items, ending.now, word.now)) }
{
    Ok(Command {
        sent,
        end: ending.to_vec(alloc)?,
        wanted: word.to_vec(alloc)?,
    })
}

/// These lines, each with what ends it.
pub fn ended(alloc: Global, lines: &[String], end: &[u8]) -> Result<Vec<Vec<u8>>, AllocError>
    ensures { IfOk result (λ all. map (λ line. line.items) all.items ≡ ended_lines lines.now end.now) }
{
    let mut all = Vec::new(alloc);
    for line in lines {
        all.push(with_end(alloc, line.as_str(), end)?)?;
    }
    Ok(all)
}

/// A line with what ends it.
pub fn with_end(alloc: Global, line: &str, end: &[u8]) -> Result<Vec<u8>, AllocError>
    ensures { IfOk result (λ bytes. bytes.items ≡ line.now ++ end.now) }
{
    let mut bytes = line.as_bytes().to_vec(alloc)?;
    bytes.extend_from_slice(end)?;
    Ok(bytes)
}
