//! What the script of each shell has around the table of commands and options, which is between apostrophes.

/// The lines of what `clap` adds by itself.
pub(crate) const ADDED: &str = r#"-|--help|-h||Print help
|--version|-V||Print version
|help|||Print this message or the help of the given subcommand(s)
"#;

/// The script for bash, up to the table.
pub(crate) const BASH_START: &str =
    r#"# Completions of filterset for bash. Each line of the table is a command or an argument of one: the command that it belongs
# to, its name, its short name, what it takes (nothing, `-` for anything, or words), and help.
_filterset_table='
"#;

/// The script for bash, from the end of the table.
pub(crate) const BASH_END: &str = r#"'

_filterset() {
    local command='' before=${COMP_WORDS[COMP_CWORD - 1]} word=${COMP_WORDS[COMP_CWORD]} words='' i
    local owner name short takes help
    for ((i = 1; i < COMP_CWORD; i++)); do
        if [[ ${COMP_WORDS[i]} != -* && ${COMP_WORDS[i]} != help ]]; then command=${COMP_WORDS[i]}; break; fi
    done
    # (bash splits `--kind=test` into three words)
    if [[ $word == = ]]; then word=''; elif [[ $before == = ]]; then before=${COMP_WORDS[COMP_CWORD - 2]}; fi
    while IFS='|' read -r owner name short takes help; do
        [[ $owner == - || $owner == "$command" ]] || continue
        if [[ -n $takes && -n $name && ($before == "$name" || $before == "$short") ]]; then words=${takes#-}; break; fi
        words+=" ${name:-${takes#-}}"
    done <<< "$_filterset_table"
    mapfile -t COMPREPLY < <(compgen -W "$words" -- "$word")
}

complete -o default -F _filterset filterset
"#;

/// The script for zsh, up to the table.
pub(crate) const ZSH_START: &str = r#"#compdef filterset
# Completions of filterset for zsh. Each line of the table is a command or an argument of one: the command that it belongs
# to, its name, its short name, what it takes (nothing, `-` for anything, or words), and help.
_filterset_table='
"#;

/// The script for zsh, from the end of the table.
pub(crate) const ZSH_END: &str = r#"'

_filterset() {
    local command='' before=${words[CURRENT - 1]} word owner name short takes help
    local -a found
    for word in ${words[2, CURRENT - 1]}; do
        if [[ $word != -* && $word != help ]]; then command=$word; break; fi
    done
    if [[ $PREFIX == --*=* ]]; then before=${PREFIX%%=*}; compset -P '*='; fi
    while IFS='|' read -r owner name short takes help; do
        [[ $owner == - || $owner == $command ]] || continue
        if [[ -n $takes && -n $name && ( $before == $name || $before == $short ) ]]; then
            if [[ $takes == - ]]; then _files; else compadd -- ${=takes}; fi
            return
        fi
        if [[ -n $name ]]; then found+=("$name:$help"); elif [[ $takes != - ]]; then found+=(${=takes}); fi
    done <<< $_filterset_table
    _describe filterset found || _files
}

if [[ $zsh_eval_context[-1] == loadautofunc ]]; then _filterset "$@"; else compdef _filterset filterset; fi
"#;

/// The script for fish, up to the table.
pub(crate) const FISH_START: &str =
    r#"# Completions of filterset for fish. Each line of the table is a command or an argument of one: the command that it belongs
# to, its name, its short name, what it takes (nothing, `-` for anything, or words), and help.
set -l table '
"#;

/// The script for fish, from the end of the table.
pub(crate) const FISH_END: &str = r#"'

for line in (string split \n -- $table)
    set -l row (string split -m 4 '|' -- $line)
    test (count $row) -eq 5; or continue
    set -l words -c filterset -d $row[5]
    switch $row[1]
        case ''
            set -a words -n '__fish_use_subcommand; or __fish_seen_subcommand_from help'
        case '?*'
            test $row[1] = -; or set -a words -n "__fish_seen_subcommand_from $row[1]"
    end
    switch $row[2]
        case '--*'
            set -a words -l (string sub -s 3 -- $row[2])
            test -z $row[3]; or set -a words -s (string sub -s 2 -- $row[3])
            switch $row[4]
                case -
                    set -a words -r -F
                case '?*'
                    set -a words -x -a $row[4]
            end
        case '?*'
            set -a words -f -a $row[2]
        case ''
            test $row[4] = -; and continue
            set -a words -f -a $row[4]
    end
    complete $words
end
"#;
