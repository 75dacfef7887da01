ghost use Rattle.std.specs.Prelude.{◌≡◌, ◌≤◌, ◌<◌, [], ◌∷◌, ◌++◌, length, OnErr, OnOk};

use crate::limits::{MAX_CLIENTS, MAX_COMMANDS};
use lj_base::{Cell, Frame, Memory};
use lj_upload::Name;
use std::marker::Model;

/// The bytes of an upload's body, seen as their list.
#[derive(Debug, Drop)]
pub struct Body {
    bytes: Vec<u8>,
}

impl Model for Body {
    ghost use Rattle.std.specs.Prelude.{ℕ, List};

    ghost Value = { List ℕ };

    ghost view = { λ b. b.bytes.items };
}

impl Body {
    pub fn of(items: Vec<u8>) -> Body
        ensures { result ≡ items.items }
    {
        Body { bytes: items }
    }

    pub fn items(&self) -> &[u8]
        ensures { result.now ≡ self.now }
    {
        &self.bytes
    }

    pub fn into_vec(self) -> Vec<u8>
        ensures { result.items ≡ self }
    {
        let Body { bytes } = self;
        bytes
    }
}

/// What a client asks for.
#[derive(Debug, Drop)]
pub enum Command {
    /// The blocks in the body, for this cell.
    Upload { cell: Cell, body: Body },
    /// The block file in the body, whose header names the cell.
    UploadFile { body: Body },
    Bound { cell: Cell },
    Plan { cell: Cell },
    Expand { cell: Cell },
    Settle,
}

/// Commands in order, seen as their list.
#[derive(Debug, Drop)]
pub struct Commands {
    commands: Vec<Command>,
}

impl Model for Commands {
    ghost use Rattle.std.specs.Prelude.{List};
    ghost use Rattle.lj_script.specs.declared.scripts.Command.{Command};

    ghost Value = { List Command };

    ghost view = { λ c. c.commands.items };
}

impl Commands {
    pub fn of(items: Vec<Command>) -> Commands
        ensures { result ≡ items.items }
    {
        Commands { commands: items }
    }

    pub fn items(&self) -> &[Command]
        ensures { result.now ≡ self.now }
    {
        &self.commands
    }

    pub fn into_vec(self) -> Vec<Command>
        ensures { result.items ≡ self }
    {
        let Commands { commands } = self;
        commands
    }

    fn push(&mut self, command: Command) -> Result<(), Memory>
        ensures ok { OnOk result (self.new ≡ self.old ++ command ∷ []) }
        ensures err { OnErr result (self.new ≡ self.old) }
    {
        self.commands.push(command)?;
        Ok(())
    }
}

/// A client's name, and at most [`MAX_COMMANDS`] commands in which each cell has k of 1 or more.
#[derive(Debug, Drop)]
pub struct Section {
    pub name: Name,
    pub commands: Commands,
}

impl Model for Section {
    ghost use Rattle.lj_script.specs.Values.{AreOfSection, SectionValue};

    ghost Value = { SectionValue };

    ghost view = { λ s. record { name = s.name; commands = s.commands } };

    ghost invariant = { λ s. AreOfSection s.commands };
}

impl Section {
    ghost use Rattle.std.specs.List.{AllByRecursion};
    ghost use Rattle.lj_script.specs.Values.{NamesSome};

    /// The client's name.
    pub fn name(&self) -> Name
        ensures { result ≡ self.now.name }
    {
        self.name
    }

    /// The commands, with the section's limits.
    pub fn commands(&self) -> &[Command]
        ensures commands { result.now ≡ self.now.commands }
        ensures few { length result.now ≤ MAX_COMMANDS }
        ensures cells { AllByRecursion NamesSome result.now }
    {
        self.commands.items()
    }

    pub(crate) fn push(&mut self, command: Command) -> Result<(), Memory>
        requires room { length self.old.commands < MAX_COMMANDS }
        requires cell { NamesSome command }
        ensures ok { OnOk result (self.new ≡ record self.old { commands = self.old.commands ++ command ∷ [] }) }
        ensures err { OnErr result (self.new ≡ self.old) }
    {
        self.commands.push(command)
    }
}

/// Sections in order, seen as their list.
#[derive(Debug, Drop)]
pub struct Sections {
    sections: Vec<Section>,
}

impl Model for Sections {
    ghost use Rattle.std.specs.Prelude.{List};
    ghost use Rattle.lj_script.specs.Values.{SectionValue};

    ghost Value = { List SectionValue };

    ghost view = { λ s. s.sections.items };
}

impl Sections {
    pub fn of(items: Vec<Section>) -> Sections
        ensures { result ≡ items.items }
    {
        Sections { sections: items }
    }

    pub fn items(&self) -> &[Section]
        ensures { result.now ≡ self.now }
    {
        &self.sections
    }

    pub fn into_vec(self) -> Vec<Section>
        ensures { result.items ≡ self }
    {
        let Sections { sections } = self;
        sections
    }
}

/// A frame, and at most [`MAX_CLIENTS`] sections.
#[derive(Debug, Drop)]
pub struct Script {
    pub frame: Frame,
    pub clients: Sections,
}

impl Model for Script {
    ghost use Rattle.std.specs.Prelude.{◌≤◌, length};
    ghost use Rattle.lj_script.specs.Values.{ScriptValue};
    ghost use Rattle.lj_script.specs.declared.limits.TheConstants.{MAX_CLIENTS};

    ghost Value = { ScriptValue };

    ghost view = { λ s. record { frame = s.frame; clients = s.clients } };

    ghost invariant = { λ s. length s.clients ≤ MAX_CLIENTS };
}

impl Script {
    /// The sections, with their limit.
    pub fn sections(&self) -> &[Section]
        ensures sections { result.now ≡ self.now.clients }
        ensures few { length result.now ≤ MAX_CLIENTS }
    {
        self.clients.items()
    }
}
