ghost use Rattle.std.specs.Prelude.{◌≡◌, ◌↔◌, ◌≤◌, IfErr, IsTrue, OnOk, length, map};
ghost use Rattle.std.specs.List.{Contains};
ghost use Rattle.lj_script.specs.Items.{FitsAfter, HasRoom, IsClientFault, IsRoomFault};
ghost use Rattle.lj_script.specs.Items.{new_client, new_command, with_item};
ghost use Rattle.lj_script.specs.Values.{NamesSome};

use crate::faults::ScriptFault;
use crate::limits::{MAX_CLIENTS, MAX_COMMANDS};
use crate::scripts::{Command, Commands, Section};
use lj_upload::Name;
use std::alloc::Global;

// Begins the section of a client, whose line has this number.
pub(crate) fn add_client(
    alloc: Global,
    sections: &mut Vec<Section>,
    name: Name,
    line: u64,
) -> Result<(), ScriptFault>
    requires { length sections.old.items ≤ MAX_CLIENTS }
    ensures added { OnOk result (FitsAfter sections.old.items (new_client name)
        × (sections.new.items ≡ with_item sections.old.items (new_client name))) }
    ensures fault { IfErr result (IsClientFault sections.old.items name line) }
{
    if is_used(sections, &name) {
        return Err(ScriptFault::BadLine { line });
    }
    if sections.len() >= MAX_CLIENTS {
        return Err(ScriptFault::TooManyClients { line });
    }
    let commands = Commands::of(Vec::new(alloc));
    sections
        .push(Section { name, commands })
        .map_err(|_| ScriptFault::Memory)
}

fn is_used(sections: &[Section], name: &Name) -> bool
    ensures { IsTrue result ↔ Contains (map (λ s. s.name) sections.now) name.now }
{
    sections.iter().any(|section| has_name(section, name))
}

fn has_name(section: &Section, name: &Name) -> bool
    ensures { IsTrue result ↔ (section.now.name ≡ name.now) }
{
    section.name == *name
}

// Whether there is a section, and room for one command more in the last.
pub(crate) fn check_room(sections: &[Section], line: u64) -> Result<(), ScriptFault>
    ensures room { OnOk result (HasRoom sections.now) }
    ensures fault { IfErr result (IsRoomFault sections.now line) }
{
    let Some(section) = sections.last() else {
        return Err(ScriptFault::BadLine { line });
    };
    if section.commands().len() >= MAX_COMMANDS {
        return Err(ScriptFault::TooManyCommands { line });
    }
    Ok(())
}

// Adds a command to the last section.
pub(crate) fn push_command(sections: &mut Vec<Section>, command: Command) -> Result<(), ScriptFault>
    requires room { HasRoom sections.old.items }
    requires cell { NamesSome command }
    ensures added { OnOk result (sections.new.items ≡ with_item sections.old.items (new_command command)) }
    ensures fault { IfErr result (λ fault. fault ≡ ScriptFault.Memory) }
{
    let last = sections.len() - 1;
    sections[last]
        .push(command)
        .map_err(|_| ScriptFault::Memory)
}
