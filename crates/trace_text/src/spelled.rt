ghost use Rattle.std.specs.Prelude.{◌≡◌};
ghost use Rattle.trace_text.specs.Lines.{is_attach};
ghost use Rattle.trace_text.specs.Spelled.{act_said};

/// A call as its line says it, each name a part of the document.
#[derive(Clone, Copy)]
pub enum SpelledAct<'a> {
    Make {
        dir: u8,
        name: &'a [u8],
    },
    Drop {
        dir: u8,
        name: &'a [u8],
    },
    Rename {
        dir: u8,
        name: &'a [u8],
        to_dir: u8,
        to_name: &'a [u8],
    },
    Find {
        dir: u8,
        name: &'a [u8],
    },
    Count {
        dir: u8,
    },
    Next {
        dir: u8,
        after: Option<&'a [u8]>,
    },
    Attach {
        name: &'a [u8],
    },
}

#[derive(Clone, Copy)]
pub struct SpelledCall<'a> {
    pub worker: u32,
    pub act: SpelledAct<'a>,
}

/// Whether a policy is attached.
pub fn is_attach(act: &SpelledAct) -> bool
    ensures { result ≡ is_attach (act_said act.now) }
{
    matches!(act, SpelledAct::Attach { .. })
}
