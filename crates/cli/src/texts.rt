//! The texts that say how the program is called.

/// How the program is called.
pub const USAGE: &str = "guarddb format FILE --pages N --admin NAME [--journal]
       guarddb run FILE SCRIPT [--stop|--explain]
       guarddb run --memory NAME SCRIPT [--stop|--explain]
       guarddb serve FILE --port P --connections K [--idle SECONDS]
       guarddb serve FILE --socket PATH --connections K [--idle SECONDS]
       guarddb serve FILE --port P --clients N [--connections K] [--wait SECONDS] [--idle SECONDS] [--block SECONDS]
       guarddb serve FILE --socket PATH --clients N [--connections K] [--wait SECONDS] [--idle SECONDS] [--block SECONDS]
       guarddb serve FILE --at PLACE.. --clients N [--connections K] [--wait SECONDS] [--idle SECONDS] [--block SECONDS]
       guarddb check FILE
       guarddb describe FILE [ROLE|--table T|--powers|--since OLD] [--json]
       guarddb explain FILE ROLE STATEMENT [--session LOGIN] [--json]
       guarddb copy FILE NEW --pages N [--journal]
       guarddb dump FILE OUT
       guarddb restore DUMP NEW --pages N [--journal]
       guarddb journal FILE on|off
       guarddb password [--new|--mock]
       guarddb < SCRIPT";

/// How `format` is called.
pub const FORMAT_USAGE: &str = "guarddb format FILE --pages N --admin NAME [--journal]";

/// How `copy` is called.
pub const COPY_USAGE: &str = "guarddb copy FILE NEW --pages N [--journal]";

/// How `dump` is called.
pub const DUMP_USAGE: &str = "guarddb dump FILE OUT";

/// How `restore` is called.
pub const RESTORE_USAGE: &str = "guarddb restore DUMP NEW --pages N [--journal]";

/// How `journal` is called.
pub const JOURNAL_USAGE: &str = "guarddb journal FILE on|off";

/// How `password` is called.
pub const PASSWORD_USAGE: &str = "guarddb password [--new|--mock]";

/// How `run` is called.
pub const RUN_USAGE: &str = "guarddb run FILE SCRIPT [--stop|--explain]
       guarddb run --memory NAME SCRIPT [--stop|--explain]";

/// How `serve` is called.
pub const SERVE_USAGE: &str = "guarddb serve FILE --port P --connections K [--idle SECONDS]
       guarddb serve FILE --socket PATH --connections K [--idle SECONDS]
       guarddb serve FILE --port P --clients N [--connections K] [--wait SECONDS] [--idle SECONDS] [--block SECONDS]
       guarddb serve FILE --socket PATH --clients N [--connections K] [--wait SECONDS] [--idle SECONDS] [--block SECONDS]
       guarddb serve FILE --at PLACE.. --clients N [--connections K] [--wait SECONDS] [--idle SECONDS] [--block SECONDS]";

/// How `check` is called.
pub const CHECK_USAGE: &str = "guarddb check FILE";

/// How `describe` is called.
pub const DESCRIBE_USAGE: &str =
    "guarddb describe FILE [ROLE|--table T|--powers|--since OLD] [--json]";

/// How `explain` is called.
pub const EXPLAIN_USAGE: &str = "guarddb explain FILE ROLE STATEMENT [--session LOGIN] [--json]";

/// What `--help` prints.
pub const HELP: &str = "Guarddb: a SQL server for several sessions over one database

Usage: guarddb format FILE --pages N --admin NAME [--journal]
       guarddb run FILE SCRIPT [--stop|--explain]
       guarddb run --memory NAME SCRIPT [--stop|--explain]
       guarddb serve FILE --port P --connections K [--idle SECONDS]
       guarddb serve FILE --socket PATH --connections K [--idle SECONDS]
       guarddb serve FILE --port P --clients N [--connections K] [--wait SECONDS] [--idle SECONDS] [--block SECONDS]
       guarddb serve FILE --socket PATH --clients N [--connections K] [--wait SECONDS] [--idle SECONDS] [--block SECONDS]
       guarddb serve FILE --at PLACE.. --clients N [--connections K] [--wait SECONDS] [--idle SECONDS] [--block SECONDS]
       guarddb check FILE
       guarddb describe FILE [ROLE|--table T|--powers|--since OLD] [--json]
       guarddb explain FILE ROLE STATEMENT [--session LOGIN] [--json]
       guarddb copy FILE NEW --pages N [--journal]
       guarddb dump FILE OUT
       guarddb restore DUMP NEW --pages N [--journal]
       guarddb journal FILE on|off
       guarddb password [--new|--mock]
       guarddb < SCRIPT

Commands:
  format FILE --pages N --admin NAME [--journal]
          Makes FILE, an empty database of N pages of 4,096 bytes each, N from 64 to 65536,
          whose one role is the superuser NAME. A FILE that is there already is left as it is.
          With --journal small commits are quicker, and no older guarddb opens FILE
          Example: guarddb format shop.db --pages 256 --admin ann
  run FILE SCRIPT [--stop|--explain]
          Runs the file SCRIPT over the database in FILE, which keeps what it commits. With
          --explain standard error tells of each refusal its line and what its code means, and
          shows where the syntax is wrong. With --stop the script ends at the first one
          Example: guarddb run shop.db first.script --stop
  run --memory NAME SCRIPT [--stop|--explain]
          Runs the file SCRIPT over an empty database in memory, whose one role is the
          superuser NAME
          Example: guarddb run --memory ann first.script --explain
  serve FILE --port P --connections K [--idle SECONDS]
          Serves K connections, K from 1 to 65535, one after another over the database in
          FILE. It listens on port P of 127.0.0.1, P from 1 to 65535. With --idle, SECONDS
          from 1 to 86400, a connection ends that sends nothing for so long, or takes nothing
          of an answer: its sessions are closed, blocks rolled back, and the next is served
          Example: guarddb serve shop.db --port 5455 --connections 10 --idle 60
  serve FILE --socket PATH --connections K [--idle SECONDS]
          The same on a Unix socket, whose file is made at PATH, of 1 to 107 bytes, and taken
          away at the end: whoever may write to that file may connect
          Example: guarddb serve shop.db --socket shop.sock --connections 10
  serve FILE --port P --clients N [--connections K] [--wait SECONDS] [--idle SECONDS] [--block SECONDS]
  serve FILE --socket PATH --clients N [--connections K] [--wait SECONDS] [--idle SECONDS] [--block SECONDS]
          Serves up to N clients at once, N from 1 to 1000, and K in all, or as many as come
          until the server is ended. With --wait, SECONDS from 0 to 86400, a statement that
          another client's session keeps from writing waits so long, first come, first served.
          Who keeps another from writing for --block seconds, SECONDS from 1 to 86400, or 30
          where it is left out, is ended: its sessions are closed, blocks rolled back
          Example: guarddb serve shop.db --socket shop.sock --clients 100 --wait 10
  serve FILE --at PLACE.. --clients N [--connections K] [--wait SECONDS] [--idle SECONDS] [--block SECONDS]
          The same at PLACE: port:P or socket:PATH, as above; or pgport:P or pgsocket:FOLDER,
          where psql connects, by PostgreSQL's protocol. In FOLDER, of 1 to 93 bytes, the file
          .s.PGSQL.5432 is made, and taken away at the end. With PLACE,role=NAME one comes in
          as the role NAME and as no other. With PLACE,passwords=TABLE,mock=ROLE one shows the
          password of a role first (SCRAM-SHA-256): TABLE keeps the verifiers, and that of
          ROLE, whose password nobody has, stands in for those that are missing. Else no
          password is asked for, which a line on standard error says of a port. With
          PLACE,mode=660 the file of a socket lets its group connect, too. With --at up to eight
          times one server listens at each PLACE, by its own words: what ends in ,no-superuser
          admits no superuser, nor a role that can become one
          Example: guarddb serve shop.db --at pgsocket:/run/shop,role=app --clients 100
  check FILE
          Opens the database in FILE and says whether it is whole. A FILE of format 1 is of
          format 2 then, as after run and serve, and no guarddb of format 1 opens it again. Of
          a FILE that is a dump it says whether that is whole
          Example: guarddb check shop.db
  describe FILE [ROLE|--table T|--powers|--since OLD] [--json]
          Prints the roles, tables, privileges and policies of the database in FILE, or with
          ROLE what that role may do to each table and column, and which policies apply to it.
          With --table it prints who may do what with the table T, by itself and by SET ROLE.
          With --powers it prints who may become whom, and who may grant on. With --since it
          prints what has changed since the database in OLD, a line each, and the exit status
          is 3 where something has. With --json it prints JSON. Neither FILE nor OLD is
          written, of format 1 neither
          Example: guarddb describe shop.db bob
  explain FILE ROLE STATEMENT [--session LOGIN] [--json]
          Prints in which keys of its tables STATEMENT looks for rows as ROLE: a SELECT, INSERT,
          UPDATE or DELETE, which is not run. Prints which policies apply, and why a whole table
          is read. With --session it is run in a session of LOGIN after SET ROLE ROLE, else in
          one of ROLE. With --json it prints JSON. FILE is not written, of format 1 neither
          Example: guarddb explain shop.db bob 'SELECT count(*) FROM orders'
  copy FILE NEW --pages N [--journal]
          Copies the database in FILE to NEW, a new file of N pages, N from 64 to 65536: a
          backup, a larger file or a smaller one. FILE is not written, of format 1 neither, and
          others may read it meanwhile. A NEW that is there already is left as it is. With
          --journal NEW has a journal, whether FILE has one or not
          Example: guarddb copy shop.db backup.db --pages 256 --journal
  dump FILE OUT
          Writes a dump of the database in FILE to OUT, a new file: a backup that is no larger
          than what the database has, and shows by itself whether it is whole. FILE is not
          written, of format 1 neither, and others may read it meanwhile. An OUT that is there
          already is left as it is
          Example: guarddb dump shop.db shop.dump
  restore DUMP NEW --pages N [--journal]
          Makes NEW, a new file of N pages, N from 64 to 65536, a database of the dump in DUMP,
          and prints how many superusers and how many roles that may log in it has: whoever can
          write a dump can make each of its roles one. A NEW that is there already is left as it
          is. With --journal NEW has a journal
          Example: guarddb restore shop.dump shop.db --pages 256
  journal FILE on|off
          Gives the database in FILE a journal, or takes its journal away: the database stays
          the same. With a journal small commits are quicker, and no older guarddb opens FILE
          Example: guarddb journal shop.db on
  password [--new|--mock]
          Prints the verifier of the password that stands on standard input, in one line of 1 to
          1,024 characters of ASCII, from the space to the tilde: a table of passwords keeps it,
          as serve --at says. With --new draws a password, and prints it and its verifier. With
          --mock prints a verifier that nobody has the password of
          Example: guarddb password < password.txt
  (none)  Runs the script on standard input over an empty database in memory, whose one
          role is the superuser root
          Example: printf 'open s root\\ns: SELECT 1 + 2\\n' | guarddb

Options:
  -h, --help     Print help
  -V, --version  Print version

Each line of a script is one event, and each event is answered:
  open SESSION ROLE    opens SESSION for ROLE
  SESSION: STATEMENT   runs STATEMENT in SESSION
  close SESSION        closes SESSION
Empty lines and lines that begin with # are skipped.

The exit status is 0 when the command was carried out, 1 after a fault, which standard
error names, and when the server has stopped, 2 for an invalid line of the script and for
words that are no command, and 3 when --stop has ended a script, or --since has found that
something has changed.
";

/// The version of the program.
pub const VERSION_NUMBER: &str = "0.2.0";

/// What `--version` prints: the version, and the formats of files that this program reads and writes.
pub const VERSION: &str = "guarddb 0.2.0
file formats: reads 1, 2 and 3; writes 2 and 3
";
