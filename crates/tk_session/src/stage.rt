//! The reading of a session, one line at a time.

ghost use Rattle.std.specs.Prelude.{◌≡◌, ◌≤◌, length, IfOk, IfErr, Ok};
ghost use Rattle.tk_session.specs.Reading.{StepGives, is_taken, is_covered, hindrance, is_served, alias_hindrance, alias_of, app_line_of, closed, count_step, end_line_of, event_hindrance, joined, script_line_of, heading_step, app_step, block_step, script_step, text_step, moment_step, event_admitted, event_step, step};
ghost use Rattle.tcl_text.specs.Limits.{most_bytes};
ghost use Rattle.tk_alias.specs.Names.{most_command_name};

use crate::alias_line::{AliasFields, alias_line};
use crate::event_line::event_line;
use crate::line::{app_line, end_line, script_line, utf8};
use crate::listing::Listing;
use crate::screen::Screen;
use crate::script::ScriptText;
use crate::session::{AliasLine, AppBlock, EventLine, Head};
use std::alloc::Global;
use tcl_text::Text;
use tk_alias::{MAX_ALIASES, Service};
use tk_base::Rect;
use tk_route::{HostFault, LineFault, MAX_APPLICATIONS, shares_pixel};

/// The formats of a session, by the number of its heading.
#[derive(Clone, Copy, Debug, PartialEq, Eq)]
pub(crate) enum Format {
    First,
    /// With `rect` lines, and budgets that are refilled.
    Second,
}

/// What the lines so far have told, and which line comes next.
#[derive(Drop)]
pub(crate) enum Stage {
    /// The heading.
    Heading,
    /// The first line of an application, or `events`.
    Block {
        format: Format,
        apps: Listing<AppBlock>,
    },
    /// A line of an alias of an application, or its script line.
    Script {
        format: Format,
        apps: Listing<AppBlock>,
        head: Head,
    },
    /// One of the lines that are left of a script.
    Text {
        format: Format,
        apps: Listing<AppBlock>,
        head: Head,
        left: u64,
        script: ScriptText,
    },
    /// A line of the screen or the keyboard, or the end line.
    Event {
        format: Format,
        apps: Listing<AppBlock>,
        screen: Screen,
        told: Listing<EventLine>,
    },
    /// Nothing.
    Whole {
        apps: Listing<AppBlock>,
        told: Listing<EventLine>,
        end: u64,
    },
}

fn is_name_taken(name: &str, apps: &[AppBlock]) -> bool
    ensures { result ≡ is_taken name.now apps.now }
{
    for app in apps {
        if app.name.as_str() == name {
            return true;
        }
    }
    false
}

fn is_rect_covered(rect: Rect, apps: &[AppBlock]) -> bool
    ensures { result ≡ is_covered rect apps.now }
{
    for app in apps {
        if shares_pixel(app.rect, rect) {
            return true;
        }
    }
    false
}

/// What keeps an application from coming after these.
fn hindrance_of(apps: &[AppBlock], name: &str, rect: Rect) -> Option<LineFault>
    ensures { result ≡ hindrance apps.now name.now rect }
{
    if apps.len() >= MAX_APPLICATIONS {
        Some(LineFault::TooManyApps)
    } else if is_name_taken(name, apps) {
        Some(LineFault::NameTaken)
    } else if is_rect_covered(rect, apps) {
        Some(LineFault::Overlap)
    } else {
        None
    }
}

fn is_served(name: &str, aliases: &[AliasLine]) -> bool
    ensures { result ≡ is_served name.now aliases.now }
{
    for alias in aliases {
        if alias.name.as_str() == name {
            return true;
        }
    }
    false
}

/// What keeps an alias from coming after these.
fn alias_hindrance_of(aliases: &[AliasLine], name: &str) -> Option<LineFault>
    ensures { result ≡ alias_hindrance aliases.now name.now }
{
    if aliases.len() >= MAX_ALIASES {
        Some(LineFault::BadLine)
    } else if is_served(name, aliases) {
        Some(LineFault::NameTaken)
    } else {
        None
    }
}

fn read_heading(alloc: Global, line: &[u8]) -> Result<Stage, HostFault>
    ensures { StepGives result (heading_step line.now) }
{
    let apps = Listing::new(alloc);
    if line == b"tkhost 1".as_slice() {
        Ok(Stage::Block {
            format: Format::First,
            apps,
        })
    } else if line == b"tkhost 2".as_slice() {
        Ok(Stage::Block {
            format: Format::Second,
            apps,
        })
    } else {
        Err(HostFault::Refused(LineFault::BadLine))
    }
}

fn read_block(
    alloc: Global,
    format: Format,
    apps: Listing<AppBlock>,
    line: &[u8],
) -> Result<Stage, HostFault>
    ensures { StepGives result (block_step format apps line.now) }
{
    if line == b"events".as_slice() {
        let screen = Screen::new(alloc, apps.as_slice())?;
        return Ok(Stage::Event {
            format,
            apps,
            screen,
            told: Listing::new(alloc),
        });
    }
    read_app(alloc, format, apps, line)
}

fn read_app(
    alloc: Global,
    format: Format,
    apps: Listing<AppBlock>,
    line: &[u8],
) -> Result<Stage, HostFault>
    ensures { StepGives result (app_step format apps (app_line_of format line.now)) }
{
    let Some(app) = app_line(format, line) else {
        return Err(HostFault::Refused(LineFault::BadLine));
    };
    if let Some(fault) = hindrance_of(apps.as_slice(), app.name, app.rect) {
        return Err(HostFault::Refused(fault));
    }
    let head = Head {
        name: Text::of_short(alloc, app.name)?,
        rect: app.rect,
        budget: app.budget,
        aliases: Listing::new(alloc),
    };
    Ok(Stage::Script { format, apps, head })
}

/// The stage behind an application's last line.
fn close(
    format: Format,
    mut apps: Listing<AppBlock>,
    head: Head,
    script: Text,
) -> Result<Stage, HostFault>
    ensures { StepGives result (Ok (closed format apps head script)) }
{
    let Head {
        name,
        rect,
        budget,
        aliases,
    } = head;
    apps.push(AppBlock {
        name,
        rect,
        budget,
        aliases,
        script,
    })?;
    Ok(Stage::Block { format, apps })
}

/// The alias of these fields.
fn alias_of(alloc: Global, fields: &AliasFields<'_>) -> Result<AliasLine, HostFault>
    requires name { length fields.now.name.now ≤ most_command_name }
    requires config { length fields.now.config.now ≤ most_bytes }
    ensures ok { IfOk result (λ alias. alias ≡ alias_of (fields.now.name.now, fields.now.kind, fields.now.config.now)) }
    ensures err { IfErr result (λ error. error ≡ HostFault.NoMemory) }
{
    let name = Text::of_short(alloc, fields.name)?;
    let config = Text::of_short(alloc, fields.config)?;
    Ok(AliasLine {
        name,
        service: Service {
            kind: fields.kind,
            config,
        },
    })
}

/// The stage behind an alias.
fn join(
    format: Format,
    apps: Listing<AppBlock>,
    mut head: Head,
    alias: AliasLine,
) -> Result<Stage, HostFault>
    ensures { StepGives result (Ok (Stage.Script format apps (joined head alias))) }
{
    head.aliases.push(alias)?;
    Ok(Stage::Script { format, apps, head })
}

fn read_script_line(
    alloc: Global,
    format: Format,
    apps: Listing<AppBlock>,
    head: Head,
    line: &[u8],
) -> Result<Stage, HostFault>
    ensures { StepGives result (script_step format apps head line.now) }
{
    match alias_line(line) {
        None => read_count(alloc, format, apps, head, line),
        Some(fields) => {
            if let Some(fault) = alias_hindrance_of(head.aliases.as_slice(), fields.name) {
                return Err(HostFault::Refused(fault));
            }
            let alias = alias_of(alloc, &fields)?;
            join(format, apps, head, alias)
        }
    }
}

fn read_count(
    alloc: Global,
    format: Format,
    apps: Listing<AppBlock>,
    head: Head,
    line: &[u8],
) -> Result<Stage, HostFault>
    ensures { StepGives result (count_step format apps head (script_line_of line.now)) }
{
    match script_line(line) {
        None => Err(HostFault::Refused(LineFault::BadLine)),
        Some(0) => close(format, apps, head, Text::empty()),
        Some(left) => Ok(Stage::Text {
            format,
            apps,
            head,
            left,
            script: ScriptText::new(),
        }),
    }
}

/// Reads one of the left lines of a script.
fn read_text(
    alloc: Global,
    format: Format,
    apps: Listing<AppBlock>,
    head: Head,
    left: u64,
    script: ScriptText,
    line: &[u8],
) -> Result<Stage, HostFault>
    ensures { StepGives result (text_step format apps head left script line.now) }
{
    let Some(text) = utf8(line) else {
        return Err(HostFault::Refused(LineFault::BadLine));
    };
    if !script.has_room(text) {
        return Err(HostFault::Refused(LineFault::BadLine));
    }
    let script = script.with_line(alloc, text)?;
    if left > 1 {
        return Ok(Stage::Text {
            format,
            apps,
            head,
            left: left - 1,
            script,
        });
    }
    close(format, apps, head, Text::of_short(alloc, script.as_str())?)
}

fn read_event(
    format: Format,
    apps: Listing<AppBlock>,
    screen: Screen,
    told: Listing<EventLine>,
    line: &[u8],
) -> Result<Stage, HostFault>
    ensures { StepGives result (event_step format apps screen told line.now) }
{
    match event_line(format, apps.as_slice(), line) {
        None => read_end(apps, screen, told, line),
        Some(event) => admit(format, apps, screen, told, &event),
    }
}

/// The stage behind an event.
fn admit(
    format: Format,
    apps: Listing<AppBlock>,
    screen: Screen,
    mut told: Listing<EventLine>,
    event: &EventLine,
) -> Result<Stage, HostFault>
    ensures { StepGives result (event_admitted format apps screen told event.now (event_hindrance screen event.now)) }
{
    if let Some(fault) = screen.hindrance_of(event) {
        return Err(HostFault::Refused(fault));
    }
    let EventLine { moment, line } = *event;
    told.push(EventLine { moment, line })?;
    Ok(Stage::Event {
        format,
        apps,
        screen: screen.after(event),
        told,
    })
}

fn read_end(
    apps: Listing<AppBlock>,
    screen: Screen,
    told: Listing<EventLine>,
    line: &[u8],
) -> Result<Stage, HostFault>
    ensures { StepGives result (moment_step apps screen told (end_line_of line.now)) }
{
    match end_line(line) {
        None => Err(HostFault::Refused(LineFault::BadLine)),
        Some(end) if end < screen.moment => Err(HostFault::Refused(LineFault::TimeBack)),
        Some(end) => Ok(Stage::Whole { apps, told, end }),
    }
}

impl Stage {
    /// Takes the next line.
    pub(crate) fn step(self, alloc: Global, line: &[u8]) -> Result<Stage, HostFault>
        ensures { StepGives result (step self line.now) }
    {
        match self {
            Stage::Heading => read_heading(alloc, line),
            Stage::Block { format, apps } => read_block(alloc, format, apps, line),
            Stage::Script { format, apps, head } => {
                read_script_line(alloc, format, apps, head, line)
            }
            Stage::Text {
                format,
                apps,
                head,
                left,
                script,
            } => read_text(alloc, format, apps, head, left, script, line),
            Stage::Event {
                format,
                apps,
                screen,
                told,
            } => read_event(format, apps, screen, told, line),
            Stage::Whole { .. } => Err(HostFault::Refused(LineFault::BadLine)),
        }
    }
}
