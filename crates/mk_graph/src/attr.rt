//! Attributes of nodes (make(1), "SPECIAL SOURCES (ATTRIBUTES)").
ghost use Rattle.std.specs.Prelude.{◌≡◌};
ghost use Rattle.mk_graph.specs.Marks as spec;

/// What a node can be marked with.
#[derive(Clone, Copy, PartialEq, Eq)]
pub enum Attr {
    /// `.PHONY`: it is no file, and always out of date.
    Phony,
    /// `.EXEC`: it is always made, and counts as old for others where its file is missing.
    Exec,
    /// `.OPTIONAL`: it is dropped where there is no way to make it.
    Optional,
    /// `.PRECIOUS`: its file is not removed after a failure.
    Precious,
    /// `.SILENT`: its commands are not printed.
    Silent,
    /// `.IGNORE`: failures of its commands are ignored.
    Ignore,
    /// `.NOTMAIN`: it is never the main target.
    NotMain,
    /// `.USE`: a macro, whose commands go behind those of a target that takes it.
    Macro,
    /// `.USEBEFORE`: a macro, whose commands go before those of a target that takes it.
    MacroBefore,
    /// `.WAIT`: it parts the sources of one line.
    Wait,
    /// `.META`: it has a meta file.
    Meta,
    /// `.NOMETA`: it has no meta file.
    NoMeta,
    /// `.NOMETA_CMP`: its commands are not compared with those of its meta file.
    NoMetaCmp,
    /// It stood before the operator `!`, so it is always made.
    Remake,
    /// It stood as a target.
    Target,
    /// It is a rule from one suffix to another.
    Rule,
}

/// The attributes of a node, each by itself.
#[derive(Clone, Copy, PartialEq, Eq)]
pub struct Marks {
    pub phony: bool,
    pub exec: bool,
    pub optional: bool,
    pub precious: bool,
    pub silent: bool,
    pub ignore: bool,
    pub not_main: bool,
    pub macro_behind: bool,
    pub macro_before: bool,
    pub wait: bool,
    pub meta: bool,
    pub no_meta: bool,
    pub no_meta_cmp: bool,
    pub remake: bool,
    pub target: bool,
    pub rule: bool,
}

impl Marks {
    /// No attribute.
    pub fn none() -> Marks
        ensures { result ≡ spec.no_marks }
    {
        Marks {
            phony: false,
            exec: false,
            optional: false,
            precious: false,
            silent: false,
            ignore: false,
            not_main: false,
            macro_behind: false,
            macro_before: false,
            wait: false,
            meta: false,
            no_meta: false,
            no_meta_cmp: false,
            remake: false,
            target: false,
            rule: false,
        }
    }

    /// Whether this attribute is among them.
    pub fn has(self, attr: Attr) -> bool
        ensures { result ≡ spec.has self attr }
    {
        match attr {
            Attr::Phony => self.phony,
            Attr::Exec => self.exec,
            Attr::Optional => self.optional,
            Attr::Precious => self.precious,
            Attr::Silent => self.silent,
            Attr::Ignore => self.ignore,
            Attr::NotMain => self.not_main,
            Attr::Macro => self.macro_behind,
            Attr::MacroBefore => self.macro_before,
            Attr::Wait => self.wait,
            Attr::Meta => self.meta,
            Attr::NoMeta => self.no_meta,
            Attr::NoMetaCmp => self.no_meta_cmp,
            Attr::Remake => self.remake,
            Attr::Target => self.target,
            Attr::Rule => self.rule,
        }
    }

    /// These attributes and this one.
    pub fn with(self, attr: Attr) -> Marks
        ensures { result ≡ spec.marked self attr }
    {
        let mut marks = self;
        match attr {
            Attr::Phony => marks.phony = true,
            Attr::Exec => marks.exec = true,
            Attr::Optional => marks.optional = true,
            Attr::Precious => marks.precious = true,
            Attr::Silent => marks.silent = true,
            Attr::Ignore => marks.ignore = true,
            Attr::NotMain => marks.not_main = true,
            Attr::Macro => marks.macro_behind = true,
            Attr::MacroBefore => marks.macro_before = true,
            Attr::Wait => marks.wait = true,
            Attr::Meta => marks.meta = true,
            Attr::NoMeta => marks.no_meta = true,
            Attr::NoMetaCmp => marks.no_meta_cmp = true,
            Attr::Remake => marks.remake = true,
            Attr::Target => marks.target = true,
            Attr::Rule => marks.rule = true,
        }
        marks
    }

    /// Whether a node with these is a macro.
    pub fn is_macro(self) -> bool
        ensures { result ≡ spec.is_macro self }
    {
        self.macro_behind || self.macro_before
    }

    /// Whether a node with these takes the macros among its sources.
    pub fn takes_macros(self) -> bool
        ensures { result ≡ spec.takes_macros self }
    {
        self.target && !self.is_macro()
    }

    /// These and what is taken of a macro's: all but `.USE`, `.USEBEFORE` and what is no attribute.
    pub fn with_taken(self, other: Marks) -> Marks
        ensures { result ≡ spec.taken_marks self other }
    {
        Marks {
            phony: self.phony | other.phony,
            exec: self.exec | other.exec,
            optional: self.optional | other.optional,
            precious: self.precious | other.precious,
            silent: self.silent | other.silent,
            ignore: self.ignore | other.ignore,
            not_main: self.not_main | other.not_main,
            wait: self.wait | other.wait,
            meta: self.meta | other.meta,
            no_meta: self.no_meta | other.no_meta,
            no_meta_cmp: self.no_meta_cmp | other.no_meta_cmp,
            ..self
        }
    }
}
