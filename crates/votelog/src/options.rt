use crate::choices::{Mask, PayloadKind, Value};
use crate::messages::message;
use phrases::checking::{Layers, SchemeKind};
use phrases::failure::Failure;
use std::alloc::Global;
use std::{env, fmt};

#[derive(Drop)]
pub(crate) struct ShowFiles {
    pub calls: String,
    pub keys: Option<String>,
}

#[derive(Drop)]
pub(crate) struct WriteFiles {
    pub lines: String,
    pub calls: String,
    pub keys: Option<String>,
}

// The files of a check, and the scheme that judges the signatures.
#[derive(Drop)]
pub(crate) struct CheckFiles {
    pub calls: String,
    pub keys: String,
    pub scheme: SchemeKind,
    pub layers: Layers,
}

#[derive(Drop)]
pub(crate) enum FileCommand {
    Show(ShowFiles),
    Write(WriteFiles),
    Check(CheckFiles),
}

// What the user asks for.
#[derive(Drop)]
pub(crate) enum Command {
    Help,
    Version,
    Files(FileCommand, PayloadKind),
}

// An option that takes the next word as its value.
#[derive(Clone, Copy, Debug, PartialEq, Eq)]
enum Awaited {
    Keys,
    Payload,
    Scheme,
    Withdrawn,
}

impl Awaited {
    const ALL: [Awaited; 4] = [
        Awaited::Keys,
        Awaited::Payload,
        Awaited::Scheme,
        Awaited::Withdrawn,
    ];

    fn name(self) -> &'static str {
        match self {
            Awaited::Keys => "--keys",
            Awaited::Payload => "--payload",
            Awaited::Scheme => "--scheme",
            Awaited::Withdrawn => "--withdrawn",
        }
    }

    // The option of this name.
    fn named(word: &str) -> Option<Awaited> {
        Awaited::ALL
            .into_iter()
            .find(|option| option.name() == word)
    }

    fn needs_value(self, heap: Global) -> Failure {
        message(heap, format_args!("{self} needs a value"))
    }

    // What a word says as the option's value.
    fn value_of<T: Value>(self, heap: Global, word: &str) -> Result<T, Failure> {
        T::from_word(word).ok_or_else(|| {
            let takes = T::TAKES;
            message(heap, format_args!("{self} takes {takes}, not {word:?}"))
        })
    }
}

impl fmt::Display for Awaited {
    fn fmt<W: fmt::Write>(&self, f: &mut fmt::Formatter<W>) -> fmt::Result {
        f.write_str(self.name())
    }
}

// The words after the command's name: files in their order, and options.
#[derive(Drop)]
struct Arguments {
    files: Vec<String>,
    keys: Option<String>,
    payload: Option<PayloadKind>,
    scheme: Option<SchemeKind>,
    layers: Layers,
    awaited: Option<Awaited>,
    help: bool,
}

// One layer more, over those that there are.
fn with_layer(layers: Layers, Mask(mask): Mask) -> Layers {
    match layers {
        Layers::Bare => Layers::One(mask),
        Layers::One(inner) => Layers::Two(inner, mask),
        full => full,
    }
}

impl Arguments {
    fn new(heap: Global) -> Arguments {
        Arguments {
            files: Vec::new(heap),
            keys: None,
            payload: None,
            scheme: None,
            layers: Layers::Bare,
            awaited: None,
            help: false,
        }
    }

    // Whether an option has been given as often as it may be.
    fn given(&self, option: Awaited) -> bool {
        match option {
            Awaited::Keys => self.keys.is_some(),
            Awaited::Payload => self.payload.is_some(),
            Awaited::Scheme => self.scheme.is_some(),
            Awaited::Withdrawn => matches!(self.layers, Layers::Two(_, _)),
        }
    }

    fn option(&mut self, heap: Global, option: Awaited) -> Result<(), Failure> {
        if self.given(option) {
            let often = match option {
                Awaited::Withdrawn => "three times",
                _ => "twice",
            };
            return Err(message(heap, format_args!("{option} is given {often}")));
        }
        self.awaited = Some(option);
        Ok(())
    }

    fn value(&mut self, heap: Global, option: Awaited, word: &str) -> Result<(), Failure> {
        if word.starts_with("-") {
            return Err(option.needs_value(heap));
        }
        match option {
            Awaited::Keys => self.keys = Some(String::from_str(heap, word)?),
            Awaited::Payload => self.payload = Some(option.value_of(heap, word)?),
            Awaited::Scheme => self.scheme = Some(option.value_of(heap, word)?),
            Awaited::Withdrawn => {
                self.layers = with_layer(self.layers, option.value_of(heap, word)?);
            }
        }
        Ok(())
    }

    // Takes one word more.
    fn take(&mut self, heap: Global, word: &str) -> Result<(), Failure> {
        if let Some(option) = self.awaited.take() {
            return self.value(heap, option, word);
        }
        if let Some(option) = Awaited::named(word) {
            return self.option(heap, option);
        }
        if word == "--help" {
            self.help = true;
        } else if word.starts_with("-") {
            return Err(message(
                heap,
                format_args!("unknown option {word:?}; votelog --help lists them"),
            ));
        } else {
            self.files.push(String::from_str(heap, word)?)?;
        }
        Ok(())
    }

    fn of(heap: Global, words: &[String]) -> Result<Arguments, Failure> {
        let mut arguments = Arguments::new(heap);
        for word in words {
            arguments.take(heap, word.as_str())?;
        }
        match arguments.awaited {
            Some(option) => Err(option.needs_value(heap)),
            None => Ok(arguments),
        }
    }
}

// The files that a command takes, if there are as many.
fn exactly<const N: usize>(
    heap: Global,
    files: Vec<String>,
    takes: &str,
) -> Result<[String; N], Failure> {
    <[String; N]>::try_from(files).map_err(|_| message(heap, takes))
}

impl Arguments {
    // Refuses the options that only a check takes.
    fn no_scheme(&self, heap: Global, name: &str) -> Result<(), Failure> {
        match (self.scheme, self.layers) {
            (None, Layers::Bare) => Ok(()),
            _ => Err(message(
                heap,
                format_args!("{name} takes no --scheme or --withdrawn"),
            )),
        }
    }

    fn show(self, heap: Global) -> Result<FileCommand, Failure> {
        self.no_scheme(heap, "show")?;
        let Arguments { files, keys, .. } = self;
        let [calls] = exactly::<1>(heap, files, "show takes one file, CALLS")?;
        Ok(FileCommand::Show(ShowFiles { calls, keys }))
    }

    fn write(self, heap: Global) -> Result<FileCommand, Failure> {
        self.no_scheme(heap, "write")?;
        let Arguments { files, keys, .. } = self;
        let [lines, calls] = exactly::<2>(heap, files, "write takes two files, LINES and CALLS")?;
        Ok(FileCommand::Write(WriteFiles { lines, calls, keys }))
    }

    fn check(self, heap: Global) -> Result<FileCommand, Failure> {
        let Arguments {
            files,
            keys,
            scheme,
            layers,
            ..
        } = self;
        let keys = keys.ok_or_else(|| message(heap, "check needs --keys KEYS"))?;
        let [calls] = exactly::<1>(heap, files, "check takes one file, CALLS")?;
        Ok(FileCommand::Check(CheckFiles {
            calls,
            keys,
            scheme: scheme.unwrap_or_default(),
            layers,
        }))
    }
}

// A command on files, which `of` makes of the words after its name.
fn file_command<F: FnOnce(Arguments, Global) -> Result<FileCommand, Failure>>(
    heap: Global,
    words: &[String],
    of: F,
) -> Result<Command, Failure>
    requires { F.IsAlwaysCallable of }
{
    let arguments = Arguments::of(heap, words)?;
    if arguments.help {
        return Ok(Command::Help);
    }
    let payload = arguments.payload.unwrap_or_default();
    Ok(Command::Files(of(arguments, heap)?, payload))
}

fn words_of(rt: &HostRuntime) -> Result<Vec<String>, Failure> {
    let heap = rt.alloc();
    let all = env::args(rt).map_err(|error| message(
        heap,
        format_args!("cannot read the arguments: {error}"),
    ))?;
    Ok(all.skip(1).collect(heap)?)
}

// A command that takes no words.
fn alone(heap: Global, name: &str, words: &[String], command: Command) -> Result<Command, Failure> {
    if words.is_empty() {
        Ok(command)
    } else {
        Err(message(heap, format_args!("{name} takes no other words")))
    }
}

// What the program's arguments ask for.
pub(crate) fn asked(rt: &HostRuntime) -> Result<Command, Failure> {
    let heap = rt.alloc();
    let words = words_of(rt)?;
    let Some((name, words)) = words.as_slice().split_first() else {
        return Err(message(heap, "no command; votelog --help lists them"));
    };
    match name.as_str() {
        "--help" => alone(heap, "--help", words, Command::Help),
        "--version" => alone(heap, "--version", words, Command::Version),
        "show" => file_command(heap, words, Arguments::show),
        "write" => file_command(heap, words, Arguments::write),
        "check" => file_command(heap, words, Arguments::check),
        other => Err(message(
            heap,
            format_args!("unknown command {other:?}; votelog --help lists them"),
        )),
    }
}
